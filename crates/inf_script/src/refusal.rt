//! Why a script is refused, and at which line.

/// What is wrong with a line. In a line the checks come in this order: its length, its bytes as UTF-8, its words from
/// left to right, and last how many clients, calls and moves there are.
#[derive(Clone, Copy, Debug, PartialEq, Eq)]
pub enum Why {
    BadWord,
    BadNumber,
    UnknownClient,
    DoubleClient,
    TooMany,
    TooLong,
    NotUtf8,
}

/// The first line at fault, where lines are counted from 1, and what is wrong with it.
#[derive(Clone, Copy, Debug, PartialEq, Eq)]
pub struct ScriptRefusal {
    pub line: u64,
    pub why: Why,
}

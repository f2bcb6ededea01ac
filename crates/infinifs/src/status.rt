//! How the program ends.

ghost use Rattle.std.specs.Prelude.{◌≡◌};
ghost use Rattle.infinifs.specs.Command.{code_of};

/// How a command ended.
#[derive(Clone, Copy, Debug, PartialEq, Eq)]
pub enum Status {
    /// What there was to write was written.
    Done,
    /// The words are refused, and the usage line was written.
    WordsRefused,
    /// The source failed; nothing was run.
    ReadFault,
    /// The script is refused, and the line that says why was written.
    ScriptRefused,
    /// The sink failed; a part of what there was to write was written.
    WriteFault,
    NoMemory,
}

impl Status {
    /// The status that the process ends with.
    pub fn code(self) -> u8
        ensures { result ≡ code_of self }
    {
        match self {
            Status::Done => 0,
            Status::WordsRefused => 1,
            Status::ReadFault => 2,
            Status::ScriptRefused => 3,
            Status::WriteFault => 4,
            Status::NoMemory => 5,
        }
    }
}

//! Reads a script: bytes to the setup and the order that they spell, or the refusal of the first line at fault.
#![tactic(auto)]

mod bytes;
mod call_line;
mod client_line;
mod client_table;
mod draft;
mod examples;
mod fault;
mod lines;
mod names;
mod open_line;
mod order_line;
mod reader;
mod refusal;
mod script;
mod section;
mod sections;
mod settings;
mod words;

pub use examples::{
    calls_are_read, limits_hold, lines_are_refused, moves_are_refused, paths_are_refused,
    scripts_are_read, too_long_is_refused, words_are_refused,
};
pub use fault::ScriptFault;
pub use reader::read_script;
pub use refusal::{ScriptRefusal, Why};
pub use script::{MOST_LINE_BYTES, MOST_SCRIPT_BYTES, Script};

#[cfg(test)]
mod tests;

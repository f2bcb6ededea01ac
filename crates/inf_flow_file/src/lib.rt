//! The flow of calls that one message decides, at the directory that the path reached.
#![tactic(auto)]

mod file_flow;

pub use file_flow::FileFlow;

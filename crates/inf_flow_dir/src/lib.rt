//! The flows of calls that make and remove directories: what a client is to send, one message after another, and what
//! is cleaned up where one does not succeed.
#![tactic(auto)]

mod dir_flow;

pub use dir_flow::DirFlow;

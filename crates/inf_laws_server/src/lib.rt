//! Laws of what one server does with one request: each kind of request is gone through once, and all laws of Serves
//! rest on what came of that.
#![tactic(auto)]

mod comes;

pub use comes::{every_serve_comes_to_its_kind, machines_want_no_memory};

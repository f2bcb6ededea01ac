//! A metadata service for very large file systems, whose answers are proved.
#![tactic(auto)]

#[cfg(test)]
mod clash_tests;
#[cfg(test)]
mod crossing_tests;
#[cfg(test)]
mod directory_tests;
mod input;
#[cfg(test)]
mod largest_tests;
#[cfg(test)]
mod path_tests;
mod sched;
mod status;
#[cfg(test)]
mod tests;
mod top;
#[cfg(test)]
mod trial;

use inf_io::{ReadSource, WriteSink};
use status::Status;
use std::process::ExitCode;
use std::{env, io};
use top::infinifs;

/// The words after the program's name.
fn words(rt: &HostRuntime) -> io::Result<Vec<String>> {
    let mut words = Vec::new(rt.alloc());
    for word in env::args(rt)?.skip(1) {
        words.push(word)?;
    }
    Ok(words)
}

fn main(rt: HostRuntime) -> ExitCode {
    // The words are all that is asked of the system, and only memory can be wanting for them.
    let Ok(words) = words(&rt) else {
        return ExitCode::from(Status::NoMemory.code());
    };
    let mut source = ReadSource::new(rt.stdin());
    let mut sink = WriteSink::new(rt.stdout());
    ExitCode::from(infinifs(rt.alloc(), &words, &mut source, &mut sink))
}

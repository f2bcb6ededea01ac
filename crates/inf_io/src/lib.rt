//! Where the service's bytes come from and go to: sources and sinks that count their faults, in memory
//! or over std's readers and writers, and the two calls that read all of one and write all to one.
#![tactic(auto)]

mod fault_plan;
mod give;
mod interrupts;
mod mem_sink;
mod mem_source;
mod read_source;
mod reading;
mod sink;
mod source;
mod take;
#[cfg(test)]
mod tests;
mod write_sink;
mod writing;

pub use give::Give;
pub use mem_sink::MemSink;
pub use mem_source::MemSource;
pub use read_source::ReadSource;
pub use reading::{ReadFault, read_all};
pub use sink::Sink;
pub use source::Source;
pub use take::Take;
pub use write_sink::WriteSink;
pub use writing::{WriteFault, write_all};

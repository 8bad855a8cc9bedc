//! The outside: where bytes come from and go to, whole reads and whole writes, sources and sinks in
//! memory, and the adapters to standard input and output.
#![tactic(auto)]

mod grow_sink;
mod memory_sink;
mod memory_source;
mod outside;
mod pieces;
mod standard;
mod whole;

pub use grow_sink::GrowSink;
pub use memory_sink::MemorySink;
pub use memory_source::MemorySource;
pub use outside::{Next, Put, Sink, Source};
pub use pieces::{MOST_WAITING, add, add_last, pass};
pub use standard::{StdSink, StdSource};
pub use whole::{ReadEnd, WriteFault, read_all, write_all};

#[cfg(test)]
mod tests;

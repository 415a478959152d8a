//! The outside of the programs: a store of files, a source of input and a sink for output, as traits whose contracts
//! speak of what is held, left and written and of a count of faults; versions in memory, which tell all of it and
//! fail at chosen calls; and the real files and streams, which tell nothing of content.
#![tactic(auto)]

mod calls;
mod file_store;
mod mem_sink;
mod mem_source;
mod mem_store;
mod outside;
mod streams;

pub use file_store::FileStore;
pub use mem_sink::MemSink;
pub use mem_source::MemSource;
pub use mem_store::MemStore;
pub use outside::{Failed, Sink, SinkFault, Source, Store, StoreFault};
pub use streams::{InputSource, OutputSink};

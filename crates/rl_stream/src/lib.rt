//! One session over an input that is read in blocks, and its lines.
#![tactic(auto)]

mod fault;
mod log;
mod passing;
mod session;
mod streaming;

pub use fault::StreamFault;
pub use streaming::stream;

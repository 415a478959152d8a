//! The reading of one file: its parts, the tokens of its blocks, and their syntax trees.
#![tactic(auto)]

mod laws;
mod read;

pub use laws::{files_read_once, refusals_are_sharp};
pub use read::read_file;

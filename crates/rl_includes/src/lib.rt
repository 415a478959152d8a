//! The statements of a source, with the files that it includes read in place.
#![tactic(auto)]

mod follow;
mod literal;
mod lookup;
mod memory;
mod opening;
mod queue;
mod reader;
mod store;
mod turn;
mod unrolled;

pub use follow::unroll;
pub use unrolled::{Stop, Unrolled};

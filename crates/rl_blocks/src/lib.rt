//! The blocks of an input, up to the most bytes that an input may have.
#![tactic(auto)]

mod blocks;

pub use blocks::{InputFault, next_block};

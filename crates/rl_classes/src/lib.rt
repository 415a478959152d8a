//! Key classes: the keys of an alphabet, those that the same sets hold together in one class.
#![tactic(auto)]

mod classes;
mod partition;
mod pieces;
mod segments;
mod sets;
mod steps;

pub use segments::Segments;

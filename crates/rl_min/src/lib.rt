//! The machine with the fewest states, made from the machines of all entries.
#![tactic(auto)]

pub mod laws;
mod lists;
mod machine;
mod merged;
mod numbering;

pub use machine::minimise;

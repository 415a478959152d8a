//! The states that the entries of all machines reach, each its own, under canonical numbers.
#![tactic(auto)]

mod entries;
pub mod laws;
mod lists;
mod machine;
mod numbered;
mod parts;
mod place;
mod places;
mod states;
mod walk;

pub use machine::reached;

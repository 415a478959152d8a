//! The classes of the states of a machine that cannot be told apart.
#![tactic(auto)]

mod alike;
mod cover;
mod lists;
mod looks;
mod splits;

pub use alike::classes;

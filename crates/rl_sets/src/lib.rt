//! Finite sets as lists in one normal form: definitions, laws, and the orders that sort them.
#![tactic(auto)]

mod place;

pub use place::{number_set, put_in_place};

//! The arrays of a printed machine: which are valid and where the others fail first, the machine that they stand for,
//! and the text of their data section. Types and definitions, and which bytes are names.
#![tactic(auto)]

mod arrays;
mod names;

pub use arrays::{ArrayName, Arrays, BadValue, ORDER};
pub use names::{is_action_name, is_name};

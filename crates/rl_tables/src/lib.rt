//! Tables: the arrays of a printed machine that are valid, and the check that finds the first element which is not right.
#![tactic(auto)]

mod accessors;
mod by_name;
mod cells;
mod check;
mod counts;
mod entries;
mod keys;
mod lists;
mod look_ups;
mod names;
mod numbers;
mod offsets;
mod rows;
mod statement_of;
mod statements;
mod states;
mod step;
mod sums;
mod tables;
mod targets;
mod walk;

pub use rl_arrays::{ArrayName, Arrays, BadValue};
pub use rows::arrays_are_checked;
pub use step::Step;
pub use tables::Tables;

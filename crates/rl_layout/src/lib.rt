//! The tables of a machine: its arrays, laid out state by state.
#![tactic(auto)]

mod books;
mod cells;
mod lay;
mod lists;
mod names;
mod runs;
mod shares;
mod statements;
mod states;

pub use lay::layout;

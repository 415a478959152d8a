//! The names of a source: its first faults, and one draft for each machine, in which names are numbers.
#![tactic(auto)]

mod actions;
mod alone;
mod alphabets;
mod base;
mod brought;
mod checks;
mod codes;
mod definitions;
mod entries;
mod events;
mod expressions;
mod frames;
mod groups;
mod instances;
mod leaves;
mod levels;
mod machines;
mod memory;
mod names;
mod numbers;
mod places;
mod priorities;
mod puts;
mod scope;
mod statements;
mod tables;
mod texts;
mod used;
mod values;

pub use checks::check_leaves;
pub use machines::{drafts, machine_names};
pub use memory::NameFault;
pub use names::check_names;

//! The reader of a printed data section.
#![tactic(auto)]

mod elements;
mod entry;
mod fault;
mod fronts;
mod gathering;
mod lines;
mod names;
mod numbers;
mod raw;
mod read;
mod said;
mod section;
mod texts;
mod values;
mod words;

pub use fault::TableFault;
pub use read::read_tables;
pub use words::{array_type, array_word};

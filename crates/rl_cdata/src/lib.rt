//! The text of a data section: the lines of C that hold the arrays of tables.
#![tactic(auto)]

mod arrays;
mod elements;
mod fits;
mod head;
mod section;

pub use fits::all_fit;
pub use section::data_text;

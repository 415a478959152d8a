//! From a source to what is printed for it: its Specs, the data section of a machine, and the file that `ragel` writes.
#![tactic(auto)]

mod fault;
mod nodes;
mod printed;
mod program;
mod section;
mod source;

pub use fault::CompileFault;
pub use nodes::tables_for;
pub use program::compile;
pub use rl_resolve::Runs;
pub use section::section_of;
pub use source::specs_of;

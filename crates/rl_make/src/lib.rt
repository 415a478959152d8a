//! The tables of a Spec: its machines, built, numbered and laid out.
#![tactic(auto)]

mod laws;
mod make;

pub use laws::only_entries_matter;
pub use make::tables_of;
pub use rl_build::{BuildFault, BuildRefusal};

//! What a source says: one Spec for each machine, or the first refusal.
#![tactic(auto)]

mod answer;
mod drafted;
mod forms;
mod instances;
mod instantiated;
mod limits;
mod looks;
mod machines;
mod memory;
mod refusals;
mod source;
mod spec;

pub use answer::{ResolveFault, Runs};
pub use forms::specs_are_formed;
pub use source::resolve;

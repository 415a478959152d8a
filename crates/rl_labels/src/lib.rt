//! Stamped sets, tables of priorities, what a step carries, and the conditions that hold.
#![tactic(auto)]

pub mod carry;
pub mod laws;
mod lists;
pub mod priors;
pub mod stamped;
mod truths;

pub use carry::Carry;
pub use priors::{CutFault, Prior, Priors, cut};
pub use stamped::{Stamp, Stamped};
pub use truths::Truths;

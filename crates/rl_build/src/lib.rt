//! The machines of a specification's entries, built from their expressions and scanners.
#![tactic(auto)]

mod built;
mod cells;
mod chain;
mod counting;
mod entries;
mod fault;
mod leaves;
mod node;
mod pairing;
mod patterns;
mod walk;

pub use entries::build;
pub use fault::BuildRefusal;
pub use rl_ops::BuildFault;

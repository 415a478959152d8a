//! The machine of all configurations that an operator reaches.
#![tactic(auto)]

mod fault;
mod found;
mod lists;
mod machine;
mod made;
mod names;
mod number;
mod operator;
mod row;
mod state;

pub use fault::BuildFault;
pub use machine::{explore, explore_within};
pub use operator::{Operator, Step};

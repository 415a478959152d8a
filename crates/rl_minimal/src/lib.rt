//! Machines whose states have the numbers and the lists that tables have.
#![tactic(auto)]

mod min;
mod sound;
mod state;

pub use min::MinFsm;
pub use state::{MinEdge, MinState};

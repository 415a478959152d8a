//! What every log of a run over tables needs: the names and statements of the machine that the tables hold.
#![tactic(auto)]

mod names;

pub use names::{Names, name_called};

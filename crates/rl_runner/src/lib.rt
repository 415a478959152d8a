//! The runner: a run over tables that is fed window by window, stands wherever the input so far ends, and goes on from
//! there.
#![tactic(auto)]

mod ends;
mod feeds;
mod lists;
mod picks;
mod runner;
mod state;
mod turns;

pub use runner::Runner;
use state::State;

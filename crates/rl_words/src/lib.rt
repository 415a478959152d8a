//! What the words of a command line say.
#![tactic(auto)]

mod command;
mod compiles;
mod fault;
mod given;
mod numbers;
mod replays;

pub use compiles::{CompileWords, compile_words};
pub use fault::WordsFault;
pub use replays::{Replay, RunWords, run_words};

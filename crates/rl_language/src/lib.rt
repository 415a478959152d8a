//! Which words an expression has, and that what is made of it finds them: its automaton, the runs of its tree machine and
//! of what makes the same runs, and the machines that are built. Laws alone: each function does nothing, and its contract
//! is what is proved.
#![tactic(auto)]

mod laws;
mod rows;

pub use laws::{
    automata_match_words, built_machines_match_words, built_scanners_match_words,
    replays_tell_words, scanners_cut_inputs, scanners_match_words, verdicts_tell_words,
};
pub use rows::words_of_small_expressions;

//! What operators ask: a union, a concatenation, a repetition and a scanner, which ask nothing where they can't step,
//! ask all that their parts ask wherever no candidates are a cycle of priorities. Laws alone: each function does
//! nothing, and its contract is what is proved.
#![tactic(auto)]

mod laws;

pub use laws::{accepted_expressions_ask_all, operators_ask_their_parts};

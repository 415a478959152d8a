//! Worked rows: small sources, scripts, and all that a replay over their expressions writes. Laws alone: each function
//! does nothing, and its contract is what is proved.
#![tactic(auto)]

mod rows;

pub use rows::{
    actions_are_written, calls_are_written, conditions_are_written, operands_are_written,
    priorities_are_written, refused_picks_are_written, state_actions_are_written,
    tokens_are_written, wide_characters_are_written, words_are_accepted,
};

//! Laws of priorities, of sets and of regular expressions. Laws alone: each function does nothing, and its contract
//! is what is proved.
#![tactic(auto)]

mod laws;

pub use laws::{
    joins_are_lead, regular_expressions_have_one_value, sets_have_one_value, survivors_lead_as_one,
};

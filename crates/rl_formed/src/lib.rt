//! What follows for the Specs of drafts from how they are read and rewritten: the parts of their form. Laws alone: each
//! function does nothing, and its contract is what is proved.
#![tactic(auto)]

mod laws;

pub use laws::{codes_are_read, names_are_written, places_are_in_files, specs_are_formed};

//! The part of an input that may still be read.
#![tactic(auto)]

mod window;

pub use window::Window;

//! The run over a made input of many lines, and the line that tells of it.
#![tactic(auto)]

mod feed;
mod input;
mod line;
mod tally;

pub use line::line_of_made;

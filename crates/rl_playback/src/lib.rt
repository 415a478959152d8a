//! The playback of a script over tables: all sessions, their answers, and the text that a replay writes.
#![tactic(auto)]

mod books;
mod deeds;
mod log;
mod playback;
mod takes;

pub use playback::lines_of_script;

//! The text of a printed file: host text as it stands, and the texts of `write` statements in place of blocks.
#![tactic(auto)]

mod job;
mod laws;
mod memory;
mod order;
mod quiet;
mod texts;

pub use job::Job;
pub use laws::sections_are_read_back;
pub use quiet::check_sections;
pub use texts::printed_text;

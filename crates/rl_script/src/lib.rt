//! The reading of scripts, and whether tables admit them.
#![tactic(auto)]

mod admission;
mod course;
mod events;
mod names;
mod numbers;
mod parts;
mod picks;
mod quoted;
mod reading;

pub use admission::admit;
pub use numbers::number_of;
pub use reading::read_script;

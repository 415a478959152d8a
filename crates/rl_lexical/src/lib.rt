//! The parts of a source file and the tokens of its blocks: types and definitions, with their laws.
#![tactic(auto)]

mod context;
mod mode;
mod part;
mod position;

pub use context::{Context, Expected, Form, Shape};
pub use mode::Mode;
pub use part::{Block, Part};
pub use position::{Body, Position};

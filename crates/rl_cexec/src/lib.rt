//! The texts of C that set a session to its start and that run a machine, and the code of actions in them.
#![tactic(auto)]

mod action;
mod actions;
mod cases;
mod conditions;
mod has;
mod line;
mod names;
mod rows;
mod statements;
mod texts;
mod values;

pub use action::action_text;
pub use rows::texts_are_printed;
pub use texts::{exec_text, init_text};

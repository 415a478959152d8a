//! The reading of action code: its control statements, its values, and the words that stand where they may not.
#![tactic(auto)]

mod block;
mod control;
mod faults;
mod goal;
mod laws;
mod memory;
mod number;
mod reading;
mod rows;
mod said;
mod text;
mod walk;

pub use block::is_block;
pub use faults::{fifth_outer, first_misplaced};
pub use laws::statements_have_their_form;
pub use reading::{is_read_as, statement_of};
pub use rows::codes_say;
pub use walk::read_code;

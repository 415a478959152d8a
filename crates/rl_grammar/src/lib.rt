//! Tokens, syntax trees, the grammar that says which tokens a tree spells, and statements with what is around them.
#![tactic(auto)]

pub mod read_fault;
mod step;
pub mod syntax;
pub mod token;

pub use read_fault::ReadFault;
pub use step::Step;
pub use token::{Token, TokenKind};

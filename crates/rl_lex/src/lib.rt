//! The parts of a file, and the tokens of a block.
#![tactic(auto)]

mod blocks;
mod bytes;
mod context;
mod fault;
mod form;
mod front;
mod gap;
mod lines;
mod memory;
mod mode;
mod parts;
mod place;
mod reader;
mod sign;
mod word;

pub use parts::split;
pub use reader::tokens;
pub use rl_grammar::{ReadFault, Token, TokenKind};
pub use rl_lexical::{Block, Part};

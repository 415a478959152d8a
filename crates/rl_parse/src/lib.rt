//! The parser: the tree that the tokens of a block spell, or the first refusal.
#![tactic(auto)]

mod expressions;
mod numbers;
mod parser;
mod parts;
mod refusals;
mod sentence;
mod signs;
mod statements;
mod stop;
mod words;

pub use parser::parse;

//! Union, intersection, difference, concatenation and repetition of machines.
#![tactic(auto)]

mod all;
mod chain;
pub mod laws;
mod lists;
mod live;
mod members;
mod pair;
mod parts;
mod prune;
mod rounds;
mod settle;

pub use chain::cat;
pub use pair::or;
pub use prune::{and, minus};
pub use rl_explore::BuildFault;
pub use rounds::star;

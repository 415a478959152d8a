//! Scanners: the machine of several patterns side by side, and the list of the token that ends in each of its matches.
#![tactic(auto)]

mod beside;
pub mod laws;
mod lists;
mod operator;
mod part;
mod parts;
mod patterns;
mod settle;
mod tokens;
mod walk;

pub use patterns::scanner;
pub use rl_explore::BuildFault;
pub use rl_fsm::ScanFsm;

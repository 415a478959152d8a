//! Tables of version 2: the same machine, where keys whose cells are equal share one.
#![tactic(auto)]

mod cells;
mod copies;
mod lists;
mod shares;
mod tables;

pub use tables::upgrade;

//! The trees of a machine's instantiations: names are followed, operators are rewritten to those of `Tree`, and stamps,
//! bases and the numbers of priority names and conditions are given.
#![tactic(auto)]

mod copies;
mod counts;
mod entries;
mod joins;
mod layers;
mod leaves;
mod patterns;
mod placed;
mod repeats;
mod sizes;
mod walk;

pub use entries::{RewriteFault, Rewritten, rewrite};

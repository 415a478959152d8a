//! Expressions whose names are numbers of definitions: what is left of a source before it is rewritten.
#![tactic(auto)]

mod draft;
pub mod expression;

pub use draft::{Definition, Draft, Pattern, Sign, Value};
pub use expression::{
    Bounds, Expression, Item, Join, Leaf, Link, Negation, NegationSign, Put, Repetition,
    Transitions,
};

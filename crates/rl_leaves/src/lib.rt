//! What literals, sets, regular expressions, numbers and built-in names say: sets of keys of an alphabet.
#![tactic(auto)]

mod built_in;
mod character_set;
mod fault;
mod key;
pub mod laws;
mod literal;
mod memory;
mod number;
mod ranges;
mod regular;
mod regular_item;
mod set;
mod text;

pub use built_in::{BuiltIn, built_in_leaf, built_in_named, is_built_in};
pub use fault::{KeyFault, LeafFault};
pub use key::{character_key, key_leaf, range_leaf};
pub use literal::literal_leaf;
pub use number::{count, signed};
pub use regular::regular_leaf;
pub use rl_draft::{Item, Leaf};
pub use set::set_leaf;

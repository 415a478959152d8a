//! Expression trees and the automata that they mean: configurations, steps, embeddings, pruning, scanners, the
//! language of a tree, and which nodes are refused. Definitions and laws; nothing here computes.
#![tactic(auto)]

mod laws;
mod moves;
mod rows;
mod tree;

pub use laws::{
    classes_are_counted, configurations_are_ordered, operators_keep_names, steps_depend_on_asked,
    steps_never_return,
};
pub use moves::Move;
pub use rows::{embeddings_along_words, priorities_along_words, refused_nodes, scanner_tokens};
pub use tree::{Class, Kind, Label, Tree};

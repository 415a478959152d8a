//! Embeddings of actions and priorities into machines, and conditions on their transitions.
#![tactic(auto)]

mod conditions;
mod copies;
mod embed;
mod guarded;
mod how;
mod lists;
mod machine;
mod mark;

pub use conditions::guard;
pub use embed::{embed_actions, embed_priors};
pub use how::How;
pub use mark::embed_marks;

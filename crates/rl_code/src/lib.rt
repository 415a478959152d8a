//! What the code of actions says: types and definitions.
#![tactic(auto)]

mod said;
mod word;

pub use said::{Control, Said, Saying};
pub use word::CodeWord;

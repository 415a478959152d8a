//! The small types that every layer speaks of: keys, numbers of actions, entries and conditions, places, texts,
//! faults, limits and statuses.
#![tactic(auto)]

mod alphabet;
mod faults;
mod key_range;
mod limits;
mod numbers;
mod status;
mod texts;

pub use alphabet::Alphabet;
pub use faults::{Fault, FaultKind, Limit, LimitKind};
pub use key_range::KeyRange;
pub use limits::{
    MOST_CELLS, MOST_CERTIFIED_STATES, MOST_CONDITIONS, MOST_CONFIGURATIONS, MOST_DEPTH,
    MOST_INCLUDES, MOST_INPUT_BYTES, MOST_NAMES, MOST_NODES, MOST_OUTER_STATEMENTS,
    MOST_PARENTHESES, MOST_SOURCE_BYTES,
};
pub use numbers::{ActionId, CondId, EntryId, Key, Letter, Memory, Place};
pub use sqlite_items::{Boxed, Items as List};
pub use status::Status;
pub use texts::{Code, Name, Text};

#[cfg(test)]
mod tests;

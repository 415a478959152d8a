//! A section as it stands.
use rl_arrays::Arrays;
use rl_types::{List, Name};

/// What a section says: its arrays, and its entry lines as they stand.
#[derive(Drop)]
pub(crate) struct Raw {
    pub(crate) arrays: Arrays,
    pub(crate) entries: List<(Name, i64)>,
}

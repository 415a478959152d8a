// Certificates.
use rl_types::{EntryId, Letter};

/// A word that leads from an entry's state to the state of this number.
#[derive(Debug, Drop)]
pub struct Access {
    pub state: u32,
    pub entry: EntryId,
    pub word: Vec<Letter>,
}

/// A word after which two states, by their numbers, show different things.
#[derive(Debug, Drop)]
pub struct Apart {
    pub low: u32,
    pub high: u32,
    pub word: Vec<Letter>,
}

/// That a machine has no state too many: a word to each state but Error, ascending; and a word for each pair of such
/// states, ascending by the first and then the second (this profile).
#[derive(Debug, Drop)]
pub struct Certificate {
    pub access: Vec<Access>,
    pub apart: Vec<Apart>,
}

// What a Spec has, for its parts to speak of.
use rl_types::Alphabet;

/// The alphabet of a machine, and how many actions, conditions and files it has.
#[derive(Clone, Copy, Debug, PartialEq, Eq)]
pub struct Scope {
    pub alphabet: Alphabet,
    pub actions: usize,
    pub conditions: usize,
    pub files: usize,
}

// What is wrong with keys.
use rl_types::FaultKind;

/// What is wrong with the keys that a token names, with the place that tells of it.
#[derive(Clone, Copy, Debug, PartialEq, Eq)]
pub enum KeyFault {
    /// A number, or the lower end of a range, is outside the alphabet. It is told at the number.
    Outside,
    /// The lower end of a range is above its upper end. It is told at the first token of the range, or at the set or
    /// regular expression that has it.
    Reversed,
    /// The upper end of a range is outside the alphabet. It is told at that end.
    UpperOutside,
}

impl KeyFault {
    ghost use Rattle.std.specs.Prelude.{◌≡◌};
    ghost use Rattle.rl_leaves.specs.Answers.{kind_of};

    /// The number of the fault: F8 for a key outside the alphabet, F9 for ends in the wrong order.
    pub fn kind(self) -> FaultKind
        ensures { result ≡ kind_of self }
    {
        match self {
            KeyFault::Outside | KeyFault::UpperOutside => FaultKind::F8,
            KeyFault::Reversed => FaultKind::F9,
        }
    }
}

/// Why a token gives no leaf.
#[derive(Clone, Copy, Debug, PartialEq, Eq)]
pub enum LeafFault {
    /// Something is wrong with its keys.
    Keys(KeyFault),
    /// Memory was wanted.
    Memory,
}

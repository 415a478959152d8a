// Why a node has no machine.

/// Why a node of an expression has no machine. `L6`, `L8`, `F12` and `F15` are the numbers that are printed (this
/// profile).
#[derive(Clone, Copy, Debug, PartialEq, Eq)]
pub enum BuildFault {
    /// More than 32,767 configurations are reached.
    L6,
    /// More configurations are reached than a node of so many key classes and conditions may have.
    L8,
    /// The pattern of this number, from 0, matches the empty word.
    F12(u32),
    /// At some configuration and letter, each candidate for the step is beaten by another one's priorities.
    F15,
    /// Want of memory.
    Memory,
}

impl From<rl_types::Memory> for BuildFault {
    ghost use Rattle.std.specs.Prelude.{◌≡◌};
    ghost use Rattle.rl_explore.specs.declared.fault.BuildFault.TheVariants.{Memory};

    ghost from_gives = { λ _ e. e ≡ Memory };

    fn from(_memory: rl_types::Memory) -> BuildFault {
        BuildFault::Memory
    }
}

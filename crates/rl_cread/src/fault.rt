//! Why no tables are read.
use rl_arrays::BadValue;
use std::alloc::AllocError;

/// Why a text gives no tables (this profile). Lines count from 1 at the file's first line.
#[derive(Clone, Copy, Debug, PartialEq, Eq)]
pub enum TableFault {
    /// No line of the file is the first line of a section, or none of that machine's.
    NoSection,
    /// The first line of the file that is not the line due in its place; where the file ends early, the number of its
    /// lines plus one.
    BadText { line: u64 },
    /// The text is that of a section, and this is the first element of its arrays that is not right. Start and entry
    /// lines that disagree with the arrays, an alphabet above 5 and a first final state that is none are told at element
    /// 0 of `entry_states`.
    BadValue(BadValue),
    /// Out of memory.
    Memory,
}

impl From<AllocError> for TableFault {
    ghost use Rattle.std.specs.Prelude.{◌≡◌};
    ghost use Rattle.rl_cread.specs.declared.fault.TableFault.TheVariants.{Memory};

    ghost from_gives = { λ _ e. e ≡ Memory };

    fn from(_e: AllocError) -> TableFault {
        TableFault::Memory
    }
}

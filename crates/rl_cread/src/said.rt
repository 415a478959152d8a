//! What the lines of a section say.
use rl_arrays::ArrayName;
use rl_types::{List, Name};
use std::alloc::{AllocError, AllocFailed};

/// The number that a line before the arrays says.
#[derive(Clone, Copy, Drop)]
pub(crate) enum Label {
    Start,
    FirstFinal,
    Alphabet,
}

/// What a line has to be.
#[derive(Clone, Copy, Drop)]
pub(crate) enum Form {
    Number(Label),
    Error,
    Entry,
    Numbers(ArrayName),
    Names(ArrayName),
    Last,
}

/// What a line says.
#[derive(Drop)]
pub(crate) enum Said {
    Number(Label, i64),
    Error,
    Entry(Name, i64),
    Numbers(ArrayName, List<i64>),
    Names(ArrayName, List<Name>),
    Last,
}

/// The lines between the first one and the entries.
pub(crate) const HEAD: [Form; 4] = [
    Form::Number(Label::Start),
    Form::Number(Label::FirstFinal),
    Form::Error,
    Form::Number(Label::Alphabet),
];

/// The lines behind the entries, up to that of uses.
pub(crate) const FRONT: [Form; 6] = [
    Form::Numbers(ArrayName::Actions),
    Form::Numbers(ArrayName::KeyOffsets),
    Form::Numbers(ArrayName::TransKeys),
    Form::Numbers(ArrayName::SingleLengths),
    Form::Numbers(ArrayName::RangeLengths),
    Form::Numbers(ArrayName::CellOffsets),
];

/// The lines behind that of uses.
pub(crate) const BACK: [Form; 22] = [
    Form::Numbers(ArrayName::CellAsks),
    Form::Numbers(ArrayName::CellEntries),
    Form::Numbers(ArrayName::TransTargs),
    Form::Numbers(ArrayName::TransLists),
    Form::Numbers(ArrayName::FromLists),
    Form::Numbers(ArrayName::ToLists),
    Form::Numbers(ArrayName::EofLists),
    Form::Numbers(ArrayName::ErrorLists),
    Form::Numbers(ArrayName::AcceptLists),
    Form::Numbers(ArrayName::StateKinds),
    Form::Numbers(ArrayName::Homes),
    Form::Names(ArrayName::ActionNames),
    Form::Numbers(ArrayName::StmtFirsts),
    Form::Numbers(ArrayName::StmtCounts),
    Form::Numbers(ArrayName::StmtKinds),
    Form::Numbers(ArrayName::StmtOuter),
    Form::Numbers(ArrayName::StmtArgs),
    Form::Numbers(ArrayName::StmtBases),
    Form::Names(ArrayName::CondNames),
    Form::Names(ArrayName::EntryNames),
    Form::Numbers(ArrayName::EntryStates),
    Form::Last,
];

/// Why no section is read: the line, from 0, is the first that is not the line due in its place.
#[derive(Drop)]
pub(crate) enum Stop {
    Memory,
    BadLine(u64),
}

impl From<AllocError> for Stop {
    ghost use Rattle.std.specs.Prelude.{◌≡◌};
    ghost use Rattle.rl_cread.specs.declared.said.Stop.TheVariants.{Memory};

    ghost from_gives = { λ _ e. e ≡ Memory };

    fn from(_e: AllocError) -> Stop {
        Stop::Memory
    }
}

impl<T: Drop> From<AllocFailed<T>> for Stop {
    ghost use Rattle.std.specs.Prelude.{◌≡◌};
    ghost use Rattle.rl_cread.specs.declared.said.Stop.TheVariants.{Memory};

    ghost from_gives = { λ _ e. e ≡ Memory };

    fn from(_e: AllocFailed<T>) -> Stop {
        Stop::Memory
    }
}

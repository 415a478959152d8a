// What single words of code say.
ghost use Rattle.std.specs.Prelude.{◌≡◌, MatchOption, None, Some};
ghost use Rattle.rl_arrays.specs.Statements as statements;
ghost use Rattle.rl_code.specs.Reading as reading;

use rl_code::{Control, Said, Saying};
use rl_run::StatementKind;

/// The control statement that a word begins.
pub fn control_of(said: &Said) -> Option<&Control>
    ensures { MatchOption result (reading.control_of said.now ≡ None) (λ c. reading.control_of said.now ≡ Some c.now) }
{
    match &said.saying {
        Saying::Control(control) => Some(control),
        Saying::Entry(_) => None,
        Saying::Position => None,
        Saying::Character => None,
        Saying::Misplaced => None,
    }
}

/// The entry that a control statement names.
fn target_of(control: &Control) -> Option<&[u8]>
    ensures { MatchOption result (control.now.target ≡ None) (λ name. control.now.target ≡ Some name.now) }
{
    match &control.target {
        Some(name) => Some(name.bytes()),
        None => None,
    }
}

/// The entry that a word names.
pub fn entry_of(said: &Said) -> Option<&[u8]>
    ensures { MatchOption result (reading.entry_of said.now ≡ None) (λ name. reading.entry_of said.now ≡ Some name.now) }
{
    match &said.saying {
        Saying::Control(control) => target_of(control),
        Saying::Entry(name) => Some(name.bytes()),
        Saying::Position => None,
        Saying::Character => None,
        Saying::Misplaced => None,
    }
}

/// Whether the word stands where it may not.
pub fn is_misplaced(said: &Said) -> bool
    ensures { result ≡ reading.is_misplaced said.now }
{
    match &said.saying {
        Saying::Control(_) => false,
        Saying::Entry(_) => false,
        Saying::Position => false,
        Saying::Character => false,
        Saying::Misplaced => true,
    }
}

/// Whether it begins a control statement at the outer level.
pub fn is_outer(said: &Said) -> bool
    ensures { result ≡ reading.is_outer said.now }
{
    match control_of(said) {
        Some(control) => control.outer,
        None => false,
    }
}

fn ends_list(kind: StatementKind) -> bool
    ensures { result ≡ statements.ends_list kind }
{
    match kind {
        StatementKind::Hold => false,
        StatementKind::Exec => false,
        StatementKind::Goto => true,
        StatementKind::Call => true,
        StatementKind::Ret => true,
        StatementKind::Next => false,
        StatementKind::Break => true,
    }
}

/// Whether it begins a transfer or a break.
pub fn ends(said: &Said) -> bool
    ensures { result ≡ reading.ends said.now }
{
    match control_of(said) {
        Some(control) => ends_list(control.kind),
        None => false,
    }
}

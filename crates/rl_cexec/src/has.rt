//! What a machine has.
ghost use Rattle.std.specs.Prelude.{◌≡◌, not, pos};
ghost use Rattle.std.specs.List.{list_any};
ghost use Rattle.std.specs.Ordering.{int_eq};
ghost use Rattle.rl_cexec.specs.Texts as texts;

use rl_arrays::Arrays;
use rl_model::{Root, Spec};

/// Whether an action calls an entry or returns.
pub(crate) fn calls(a: &Arrays) -> bool
    ensures { result ≡ texts.calls a.now }
{
    a.stmt_kinds
        .as_slice()
        .iter()
        .any(|kind| *kind == 4 || *kind == 5)
}

fn is_scanner(root: &Root) -> bool
    ensures { result ≡ texts.is_scanner root.now }
{
    match root {
        Root::Plain(_) => false,
        Root::Scanner(_) => true,
    }
}

/// Whether the machine has a scanner.
pub(crate) fn has_scanner(spec: &Spec) -> bool
    ensures { result ≡ texts.has_scanner spec.now }
{
    spec.entries.as_slice().iter().any(|e| is_scanner(&e.root))
}

/// Whether a state has a list that is not empty.
fn are_some(lists: &[i64]) -> bool
    ensures { result ≡ list_any (λ n. not (int_eq n (pos 0))) lists.now }
{
    lists.iter().any(|n| *n != 0)
}

/// Whether the end of the input does something.
pub(crate) fn has_ending(spec: &Spec, a: &Arrays) -> bool
    ensures { result ≡ texts.has_ending spec.now a.now }
{
    has_scanner(spec) || are_some(a.eof_lists.as_slice())
}

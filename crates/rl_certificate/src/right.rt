// Whether certificates are right.
ghost use Rattle.std.specs.Prelude.{◌≡◌, ◌↔◌, ◌<◌, IsTrue, IfSome, MatchOption, length};
ghost use Rattle.rl_minimal.specs.Machine.{entry_at};
ghost use Rattle.rl_certificate.specs.Walks.{IsEntry};
ghost use Rattle.rl_certificate.specs.Certificates.{do_homes_count, Differ, IsAccess, IsApart, IsRight};
ghost use Rattle.rl_certificate.specs.Reduced.{IsReduced};

use crate::certificate::{Access, Apart, Certificate};
use crate::order::{are_pairs, are_states};
use crate::views::show_same;
use crate::walk::walk;
use rl_minimal::MinFsm;
use rl_types::EntryId;

// The state of an entry, if there is such an entry.
fn start_of(min: &MinFsm, entry: EntryId) -> Option<u32>
    ensures start { MatchOption result (IsEntry min.now entry.0 → ⊥) (λ start. IsEntry min.now entry.0 × (start ≡ entry_at min.now.entries entry.0)) }
    ensures there { IfSome result (λ start. start < length min.now.states) }
{
    let _ = min.states();
    let index = entry.0.checked_sub(1)?;
    min.entries().get(index as usize).copied()
}

// Whether the word leads to its state from its entry's.
fn is_access(min: &MinFsm, access: &Access) -> bool
    ensures { IsTrue result ↔ IsAccess min.now access.now }
{
    match start_of(min, access.entry) {
        Some(start) => walk(min, &access.word, start) == Some(access.state),
        None => false,
    }
}

// Whether homes count between the two states.
pub(crate) fn do_homes_count(min: &MinFsm, low: u32, high: u32) -> bool
    requires low { low < length min.now.states }
    requires high { high < length min.now.states }
    ensures { result ≡ do_homes_count min.now low high }
{
    !(min.state(low).kind == 1 && min.state(high).kind == 1)
}

// Whether there are such states and they show different things.
fn differ(min: &MinFsm, homes: bool, one: Option<u32>, other: Option<u32>) -> bool
    requires one { IfSome one (λ i. i < length min.now.states) }
    requires other { IfSome other (λ i. i < length min.now.states) }
    ensures { IsTrue result ↔ Differ min.now homes one other }
{
    match (one, other) {
        (Some(i), Some(j)) => !show_same(min, homes, i, j),
        _ => false,
    }
}

// Whether the word leads from the two states to states that show different things.
fn is_apart(min: &MinFsm, apart: &Apart) -> bool
    ensures { IsTrue result ↔ IsApart min.now apart.now }
{
    let (low, high) = (apart.low, apart.high);
    if low >= high || high >= min.states() {
        return false;
    }
    let homes = do_homes_count(min, low, high);
    let (one, other) = (walk(min, &apart.word, low), walk(min, &apart.word, high));
    differ(min, homes, one, other)
}

// Whether the certificate is right.
fn is_right(min: &MinFsm, cert: &Certificate) -> bool
    ensures { IsTrue result ↔ IsRight min.now cert.now }
{
    let states = min.states();
    are_states(&cert.access, states)
        && are_pairs(&cert.apart, states)
        && cert.access.iter().all(|a| is_access(min, a))
        && cert.apart.iter().all(|p| is_apart(min, p))
}

#[tactic(auto, using(crate::proofs::ReducedLaws::right_reduced))]
/// Whether the certificate is right: it has each state but Error once and each pair of such states once, in order; each
/// access word leads to its state from its entry; and each pair's word leads to two states that show different things
/// there. Then no two states of the machine can be merged, and each is reached. It takes no memory.
pub fn check(min: &MinFsm, cert: &Certificate) -> bool
    ensures right { IsTrue result ↔ IsRight min.now cert.now }
    ensures reduced { IsTrue result → IsReduced min.now }
{
    let _ = min.states();
    is_right(min, cert)
}

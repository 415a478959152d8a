// What stands at a place.
ghost use Rattle.std.specs.Prelude.{◌≡◌};
ghost use Rattle.std.specs.Option.{option_copied};
ghost use Rattle.rl_labels.specs.Labels.{numbers};
ghost use Rattle.rl_automata.specs.Auto.{is_start};
ghost use Rattle.rl_fsm.specs.Graphs.{state_at, edges_at, fsm_auto};
ghost use Rattle.rl_fsm.specs.Roots.{graph_at, scans_at, ends_in, ends_at, token_list_in, token_list_at, auto_at};
ghost use Rattle.rl_fsm.specs.Scanned.{token_at};
ghost use Rattle.rl_model.specs.Parts.{kind_in};
ghost use Rattle.rl_root.specs.Roots.{part_at};
ghost use Rattle.rl_reach.specs.Walks.{is_final};

use crate::place::Place;
use rl_fsm::{Edge, EntryFsm, Fsm, RootFsm, ScanFsm, State};
use rl_types::{ActionId, EntryId};

// The state at a place, if there is one.
pub(crate) fn state_at(root: &RootFsm, place: Place) -> Option<&State>
    ensures { option_copied result ≡ state_at (graph_at root.now place.entry) place.state }
{
    match root.entry(EntryId(place.entry)) {
        Some(entry) => entry.machine().state(place.state),
        None => None,
    }
}

// The edges that leave a place.
pub(crate) fn edges_at(root: &RootFsm, place: Place) -> &[Edge]
    ensures { result.now ≡ edges_at (graph_at root.now place.entry) place.state }
{
    match state_at(root, place) {
        Some(state) => state.edges.as_slice(),
        None => &[],
    }
}

// The number of the entry's start; 0 where there is no such entry.
pub(crate) fn start_at(root: &RootFsm, entry: u32) -> u32
    ensures { result ≡ (graph_at root.now entry).start }
{
    match root.entry(EntryId(entry)) {
        Some(entry) => entry.machine().start(),
        None => 0,
    }
}

// Whether the entry is a scanner.
pub(crate) fn scans(root: &RootFsm, entry: u32) -> bool
    ensures { result ≡ scans_at root.now entry }
{
    match root.entry(EntryId(entry)) {
        Some(EntryFsm::Plain(_)) => false,
        Some(EntryFsm::Scanner(_)) => true,
        None => false,
    }
}

// Whether a word ends in the state.
fn is_final_in(machine: &Fsm, state: u32) -> bool
    ensures { result ≡ (fsm_auto machine.now).final state }
{
    match machine.state(state) {
        Some(found) => found.fin,
        None => false,
    }
}

// The token list of the state, if it has one.
fn token_at(scanner: &ScanFsm, state: u32) -> Option<&[ActionId]>
    ensures { option_copied result ≡ token_at scanner.now.tokens state }
{
    if state < scanner.machine().states() {
        scanner.token(state)
    } else {
        None
    }
}

// Whether a word ends in the state; in a scanner, whether a token does.
fn ends_in(entry: &EntryFsm, state: u32) -> bool
    ensures { result ≡ ends_in entry.now state }
{
    match entry {
        EntryFsm::Plain(machine) => is_final_in(machine, state),
        EntryFsm::Scanner(scanner) => token_at(scanner, state).is_some(),
    }
}

// Whether a word ends at the place; in a scanner, whether a token does.
pub(crate) fn ends(root: &RootFsm, place: Place) -> bool
    ensures { result ≡ ends_at root.now place.entry place.state }
{
    match root.entry(EntryId(place.entry)) {
        Some(entry) => ends_in(entry, place.state),
        None => false,
    }
}

// The token list of the state; empty where no token ends.
fn token_list_in(entry: &EntryFsm, state: u32) -> &[ActionId]
    ensures { numbers result.now ≡ token_list_in entry.now state }
{
    match entry {
        EntryFsm::Plain(_) => &[],
        EntryFsm::Scanner(scanner) => match token_at(scanner, state) {
            Some(list) => list,
            None => &[],
        },
    }
}

// The token list of the place; empty where no token ends.
pub(crate) fn token_list(root: &RootFsm, place: Place) -> &[ActionId]
    ensures { numbers result.now ≡ token_list_at root.now place.entry place.state }
{
    match root.entry(EntryId(place.entry)) {
        Some(entry) => token_list_in(entry, place.state),
        None => &[],
    }
}

// Whether the place is the start of its entry.
#[tactic(auto, using(crate::proofs::KindLaws::start_is))]
fn is_start(root: &RootFsm, place: Place) -> bool
    ensures { result ≡ is_start (auto_at root.now place.entry) place.state }
{
    place.state == start_at(root, place.entry)
}

// The kind of the state at a place.
pub(crate) fn kind_at(root: &RootFsm, place: Place) -> u8
    ensures { result ≡ kind_in (part_at root.now place.entry) place.state }
{
    if !scans(root, place.entry) {
        0
    } else if is_start(root, place) {
        1
    } else if !ends(root, place) {
        2
    } else if edges_at(root, place).is_empty() {
        4
    } else {
        3
    }
}

// Whether the state at a place is final; in a scanner the start alone is.
pub(crate) fn is_final(root: &RootFsm, place: Place) -> bool
    ensures { result ≡ is_final root.now place }
{
    if scans(root, place.entry) {
        kind_at(root, place) == 1
    } else {
        ends(root, place)
    }
}

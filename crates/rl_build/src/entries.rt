// The machines of a specification's entries.
ghost use Rattle.std.specs.Prelude.{◌≡◌, ◌+◌, ◌<◌, ◌≤◌, ◌++◌, ◌∷◌, [], length, Some, IfOk, IfErr, IfSome, OnOk, MatchResult, All};
ghost use Rattle.rl_types.specs.Limits.{most_configurations};
ghost use Rattle.rl_automata.specs.Nodes.{node_of};
ghost use Rattle.rl_automata.specs.Scans.{Plain};
ghost use Rattle.rl_fsm.specs.Roots.{states_in, states_of};
ghost use Rattle.rl_fsm.specs.declared.root.EntryFsm.{EntryFsm};
ghost use Rattle.rl_model.specs.RefusedNode.{IsBuildable, cause_place, pattern_place};
ghost use Rattle.rl_model.specs.Specification.{root_of, roots_of, specification_of};
ghost use Rattle.rl_model.specs.Trees.{TestsOf, AreTestsHonest, HasHonestTests};
ghost use Rattle.rl_model.specs.WellFormed.{IsWellFormed};
ghost use Rattle.rl_build.specs.Entries.{AreMachinesOf, TellsRefusal, IsFitRoot, IsReadyEntry, IsEntryBuilt, IsRootRefused, patterns_in, NamesPattern, IsEntryRefused, AreEntriesBuilt};
ghost use Rattle.rl_build.specs.Roots.{IsTwinOf};
ghost use Rattle.rl_build.specs.Trees.{cause_of, IsFit};

use crate::built::Refused;
use crate::fault::BuildRefusal;
use crate::patterns::scanned;
use crate::walk::expression;
use rl_automata::Tree;
use rl_fsm::{EntryFsm, RootFsm};
use rl_model::{Entry, Root, Spec};
use rl_ops::BuildFault;
use rl_types::{Alphabet, Place};
use std::alloc::Global;

// The place of the pattern of this number.
fn place_of_pattern(root: &Root, pattern: u32) -> Place
    requires { pattern < length (patterns_in (root_of root.now)) }
    ensures { pattern_place root.now pattern ≡ Some result }
{
    let Root::Scanner(patterns) = root else {
        unreachable!()
    };
    patterns.as_slice()[pattern as usize].place
}

// The place of a refused node: that of its first token, or of the pattern that matches the empty word.
fn place_of(entry: &Entry, refused: Refused) -> Place
    requires node { refused.node < length entry.now.places }
    requires pattern { NamesPattern (root_of entry.now.root) refused.fault }
    ensures { IfSome (cause_of refused.fault) (λ cause. cause_place entry.now refused.node cause ≡ Some result) }
{
    let node = entry.places.as_slice()[refused.node as usize];
    match refused.fault {
        BuildFault::L6 => node,
        BuildFault::L8 => node,
        BuildFault::F12(pattern) => place_of_pattern(&entry.root, pattern),
        BuildFault::F15 => node,
        BuildFault::Memory => node,
    }
}

// The refusal of an entry's node.
fn refusal(entry: &Entry, refused: Refused) -> BuildRefusal
    requires node { refused.node < length entry.now.places }
    requires pattern { NamesPattern (root_of entry.now.root) refused.fault }
    ensures fault { result.fault ≡ refused.fault }
    ensures place { IfSome (cause_of refused.fault) (λ cause. cause_place entry.now refused.node cause ≡ Some result.place) }
{
    BuildRefusal {
        fault: refused.fault,
        place: place_of(entry, refused),
    }
}

// The machine of an expression, or the first of its nodes that is refused.
fn plain(alloc: Global, alphabet: Alphabet, tree: &Tree) -> Result<EntryFsm, Refused>
    requires { IsFit (node_of tree.now) }
    ensures { MatchResult result (IsEntryBuilt alphabet (Plain (node_of tree.now))) (IsRootRefused alphabet (Plain (node_of tree.now))) }
{
    match expression(alloc, alphabet, tree) {
        Ok(built) => Ok(EntryFsm::Plain(built.machine)),
        Err(refused) => Err(refused),
    }
}

// The machine of an entry, or the first of its nodes that is refused.
fn machine_of(alloc: Global, alphabet: Alphabet, root: &Root) -> Result<EntryFsm, Refused>
    requires { IsFitRoot (root_of root.now) }
    ensures { MatchResult result (IsEntryBuilt alphabet (root_of root.now)) (IsRootRefused alphabet (root_of root.now)) }
{
    match root {
        Root::Plain(tree) => plain(alloc, alphabet, tree),
        Root::Scanner(patterns) => scanned(alloc, alphabet, patterns.as_slice()),
    }
}

// Puts the machine behind those of the entries before. Want of memory is told at the entry's last node.
fn put_behind(root: &mut RootFsm, machine: EntryFsm, places: &[Place]) -> Result<(), BuildRefusal>
    requires room { states_in root.old + states_of machine ≤ 2147483646 }
    requires places { 0 < length places.now }
    ensures { MatchResult result (λ _. root.new ≡ root.old ++ machine ∷ []) (λ r. r.fault ≡ BuildFault.Memory) }
{
    match root.push(machine) {
        Ok(()) => Ok(()),
        Err(_) => Err(BuildRefusal {
            fault: BuildFault::Memory,
            place: places[places.len() - 1],
        }),
    }
}

// Builds an entry, behind those before.
fn add_entry(
    alloc: Global,
    alphabet: Alphabet,
    entry: &Entry,
    root: &mut RootFsm,
) -> Result<(), BuildRefusal>
    requires ready { IsReadyEntry entry.now }
    requires room { states_in root.old + most_configurations ≤ 2147483646 }
    ensures { MatchResult result (λ _. (m : EntryFsm) × IsEntryBuilt alphabet (root_of entry.now.root) m × (root.new ≡ root.old ++ m ∷ [])) (IsEntryRefused alphabet entry.now) }
{
    match machine_of(alloc, alphabet, &entry.root) {
        Ok(machine) => put_behind(root, machine, entry.places.as_slice()),
        Err(refused) => Err(refusal(entry, refused)),
    }
}

// The machines of entries, or the first node that is refused.
fn machines(alloc: Global, spec: &Spec) -> Result<RootFsm, BuildRefusal>
    requires ready { All IsReadyEntry spec.now.entries }
    requires few { length spec.now.entries ≤ 65536 }
    ensures { MatchResult result (AreEntriesBuilt spec.now.alphabet spec.now.entries) (TellsRefusal spec.now) }
{
    let mut root = RootFsm::new(alloc);
    for entry in spec.entries.as_slice() {
        add_entry(alloc, spec.alphabet, entry, &mut root)?;
    }
    Ok(root)
}

/// The machines of all entries of a well-formed Spec, in text order. That of an expression is built operands first, the
/// left one before the right one. That of a scanner (the guide's section 6.3) is built of the machines of its patterns,
/// which go on side by side: a state in which some pattern is final is a match, and has the token list of the first such
/// pattern. The machines stand for the expressions and the scanners, and together they are a twin of the tree machine, so
/// that they make the same runs.
///
/// An `Err` tells the first node that is refused, with the entries in text order and the nodes of each in post-order: a
/// scanner has the nodes of its patterns in order, and then itself. Its place is that of its first token. It is `L6`
/// exactly where more than 32,767 configurations of the node are reached, else `L8` exactly where these are more than
/// 4,194,304 in number times the key classes of the node's sets times 2 to the number of its conditions, else `F15`
/// exactly where at one of them and some letter the candidates for the step are a cycle of priorities, and else `F12(i)`
/// exactly where the node is a scanner and the pattern of number i, from 0, is the first one that matches the empty word
/// (this profile); its place is then that of this pattern. For an intersection and a difference configurations are counted
/// before steps are left out. `Memory` is want of memory, at some place.
pub fn build(alloc: Global, spec: &Spec) -> Result<RootFsm, BuildRefusal>
    requires { IsWellFormed spec.now }
    ensures follows { IfOk result (AreMachinesOf (roots_of (specification_of spec.now))) }
    ensures tests { OnOk result (HasHonestTests (specification_of spec.now)) }
    ensures twin { IfOk result (λ root. (tests : TestsOf (specification_of spec.now)) → AreTestsHonest (specification_of spec.now) tests → IsTwinOf (specification_of spec.now) tests root) }
    ensures accepted { OnOk result (IsBuildable spec.now) }
    ensures refused { IfErr result (TellsRefusal spec.now) }
{
    machines(alloc, spec)
}

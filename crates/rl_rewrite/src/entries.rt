// The entries of a machine.
ghost use Rattle.std.specs.Prelude.{◌≡◌, ◌≤◌, ◌<◌, ◌+◌, ◌++◌, ◌∷◌, [], length, map, drop, IfOk, IfErr, Some, None, true, All};
ghost use Rattle.rl_types.specs.Limits.{most_nodes};
ghost use Rattle.rl_types.specs.declared.numbers.ActionId.{ActionId};
ghost use Rattle.std.specs.List.{flat_map};
ghost use Rattle.rl_automata.specs.Refused.{AreDifferent, conditions_in, sets_in};
ghost use Rattle.rl_model.specs.Counts.{trees_of};
ghost use Rattle.rl_model.specs.Specification.{root_of};
ghost use Rattle.rl_model.specs.WellFormed.{IsNumber, HasPatterns, pattern_places};
ghost use Rattle.rl_model.specs.declared.spec.Entry as entry_type;
ghost use Rattle.rl_rewrite.specs.Drafts.{IsSet, HasSetsInForm, HasScannersInForm};
ghost use Rattle.rl_rewrite.specs.Plain.{value_behind};
ghost use Rattle.rl_rewrite.specs.Sizes.{value_nodes};
ghost use Rattle.rl_rewrite.specs.Walk as w;
ghost use Rattle.rl_rewrite.specs.Walk.{begun};
ghost use Rattle.rl_rewrite.specs.Steps.{root_placed};
ghost use Rattle.rl_rewrite.specs.Measures.{AreSizes, cut, value_measured};
ghost use Rattle.rl_rewrite.specs.Entries as spec;
ghost use Rattle.rl_rewrite.specs.Entries.{made_of, meaning, meanings, meanings_in, entry, entries, all_conditions, first_limit, limit_at, limit_by, limit_of, earlier_limit, condition_limit, conditions_behind, places_of_patterns, IsMade, AreSoFar, IsNext, IsRefusal, Refuses};

use crate::counts::Counts;
use crate::patterns::{Rooted, walk_root};
use crate::sizes::{Size, entry_size, sizes_before, table};
use crate::walk::before;
use rl_draft::{Definition, Draft, Sign, Value};
use rl_model::Entry;
use rl_types::{
    ActionId, Alphabet, Limit, LimitKind, List, MOST_CONDITIONS, MOST_DEPTH, MOST_NODES, Name,
};
use std::alloc::{AllocError, Global};

/// The trees of a machine's instantiations.
#[derive(Debug, Drop)]
pub struct Rewritten {
    /// The entries in text order.
    pub entries: List<Entry>,
    /// The actions that are conditions, in order of their first `when`; a condition's number is its place here, from 1.
    pub conditions: List<ActionId>,
}

/// Why there are no trees.
#[derive(Clone, Copy, Debug, PartialEq, Eq)]
pub enum RewriteFault {
    /// The first entry in text order that passes a limit, at its name: L4, else L5, else L7.
    Limit(Limit),
    /// Want of memory.
    Memory,
}

fn is_entry(sign: Sign) -> bool
    ensures { result ≡ spec.is_entry sign }
{
    match sign {
        Sign::Name => false,
        Sign::Instantiation => true,
    }
}

fn copied(alloc: Global, name: &Name) -> Result<Name, AllocError>
    ensures { IfOk result (λ n. n ≡ name.now) }
{
    let bytes = Vec::from_slice(alloc, name.bytes())?;
    Ok(Name::new(bytes))
}

// The limit that a tree of this size passes.
fn size_limit(size: Size) -> Option<LimitKind>
    ensures { result ≡ spec.size_limit size.nodes size.depth }
{
    if size.nodes > u64::from(MOST_NODES) {
        Some(LimitKind::L4)
    } else if size.depth > u64::from(MOST_DEPTH) {
        Some(LimitKind::L5)
    } else {
        None
    }
}

/// The root of an entry, and all conditions up to it.
#[derive(Drop)]
struct Walked {
    root: Rooted,
    conditions: List<ActionId>,
}

// The walk of an entry behind those that have these conditions.
fn walk_entry(
    alloc: Global,
    alphabet: Alphabet,
    earlier: &[Definition],
    value: &Value,
    conditions: List<ActionId>,
) -> Result<Walked, AllocError>
    requires room { value_nodes (value_behind alphabet earlier.now value.now) ≤ most_nodes }
    requires few { length conditions ≤ 8 }
    ensures root { IfOk result (λ r. root_placed r.root ≡ (w.walk_value (value_behind alphabet earlier.now value.now) (begun conditions)).0) }
    ensures places { IfOk result (λ r. pattern_places r.root.root ≡ places_of_patterns (value_behind alphabet earlier.now value.now)) }
    ensures conditions { IfOk result (λ r. r.conditions ≡ (w.walk_value (value_behind alphabet earlier.now value.now) (begun conditions)).1.conditions) }
{
    let mut counts = Counts {
        stamp: 0,
        names: List::new(alloc),
        conditions,
    };
    let root = walk_root(alloc, alphabet, earlier, value, &mut counts)?;
    let Counts {
        stamp: _,
        names: _,
        conditions,
    } = counts;
    Ok(Walked { root, conditions })
}

// An entry more.
fn pushed(
    alloc: Global,
    entries: List<Entry>,
    name: &Name,
    root: Rooted,
) -> Result<List<Entry>, AllocError>
    ensures { IfOk result (λ r. map made_of r ≡ map made_of entries ++ record { name = name.now; root = (root_placed root).root; places = (root_placed root).places; pattern_places = pattern_places root.root } ∷ []) }
{
    let mut entries = entries;
    let name = copied(alloc, name)?;
    let Rooted { root, places } = root;
    entries.push(Entry { name, root, places })?;
    Ok(entries)
}

// The entry of an instantiation that is small enough, behind those that are made.
fn small_entry(
    alloc: Global,
    alphabet: Alphabet,
    earlier: &[Definition],
    d: &Definition,
    made: Rewritten,
) -> Result<Rewritten, RewriteFault>
    requires room { value_nodes (value_behind alphabet earlier.now d.now.value) ≤ most_nodes }
    requires few { length made.conditions ≤ 8 }
    ensures made { IfOk result (λ r. map made_of r.entries ≡ map made_of made.entries ++ entry made.conditions (meaning d.now (value_behind alphabet earlier.now d.now.value)) ∷ []) }
    ensures conditions { IfOk result (λ r. (r.conditions ≡ conditions_behind made.conditions (meaning d.now (value_behind alphabet earlier.now d.now.value))) × (length r.conditions ≤ 8)) }
    ensures refused { IfErr result (λ f. IsRefusal (limit_at (condition_limit (conditions_behind made.conditions (meaning d.now (value_behind alphabet earlier.now d.now.value)))) d.now.place None) f) }
{
    let Rewritten {
        entries,
        conditions,
    } = made;
    let Ok(x) = walk_entry(alloc, alphabet, earlier, &d.value, conditions) else {
        return Err(RewriteFault::Memory);
    };
    let Walked { root, conditions } = x;
    if conditions.len() > MOST_CONDITIONS {
        return Err(RewriteFault::Limit(Limit {
            kind: LimitKind::L7,
            place: d.place,
        }));
    }
    let Ok(entries) = pushed(alloc, entries, &d.name, root) else {
        return Err(RewriteFault::Memory);
    };
    Ok(Rewritten {
        entries,
        conditions,
    })
}

// The entry of an instantiation, behind those that are made.
#[tactic(auto, using(crate::proofs::EntryLaws::few_nodes))]
fn next_entry(
    alloc: Global,
    alphabet: Alphabet,
    earlier: &[Definition],
    d: &Definition,
    sizes: &[Size],
    made: Rewritten,
) -> Result<Rewritten, RewriteFault>
    requires entry { spec.is_entry d.now.sign ≡ true }
    requires sizes { AreSizes alphabet earlier.now sizes.now }
    requires few { length made.conditions ≤ 8 }
    ensures made { IfOk result (λ r. IsNext (meaning d.now (value_behind alphabet earlier.now d.now.value)) made r) }
    ensures refused { IfErr result (λ f. IsRefusal (limit_at (limit_by made.conditions (meaning d.now (value_behind alphabet earlier.now d.now.value))) d.now.place None) f) }
{
    let size = entry_size(alphabet, earlier, sizes, &d.value);
    match size_limit(size) {
        Some(kind) => Err(RewriteFault::Limit(Limit {
            kind,
            place: d.place,
        })),
        None => small_entry(alloc, alphabet, earlier, d, made),
    }
}

// What a definition makes, behind what is made.
#[tactic(auto, using(crate::proofs::EntryLaws::next_none))]
fn step(
    alloc: Global,
    alphabet: Alphabet,
    earlier: &[Definition],
    d: &Definition,
    sizes: &[Size],
    made: Rewritten,
) -> Result<Rewritten, RewriteFault>
    requires sizes { AreSizes alphabet earlier.now sizes.now }
    requires few { length made.conditions ≤ 8 }
    ensures made { IfOk result (λ r. IsNext (meaning d.now (value_behind alphabet earlier.now d.now.value)) made r) }
    ensures refused { IfErr result (λ f. IsRefusal (limit_at (limit_by made.conditions (meaning d.now (value_behind alphabet earlier.now d.now.value))) d.now.place None) f) }
{
    if is_entry(d.sign) {
        let r = next_entry(alloc, alphabet, earlier, d, sizes, made)?;
        Ok(r)
    } else {
        Ok(made)
    }
}

// One definition more.
#[tactic(auto, using(crate::proofs::EntryLaws::turn_next, crate::proofs::EntryLaws::turn_refused, crate::proofs::EntryLaws::turn_few, crate::proofs::CutLaws::sizes_length))]
fn turn(
    alloc: Global,
    alphabet: Alphabet,
    definitions: &[Definition],
    sizes: &[Size],
    i: usize,
    made: Rewritten,
) -> Result<Rewritten, RewriteFault>
    requires sizes { AreSizes alphabet definitions.now sizes.now }
    requires within { i < length definitions.now }
    requires made { AreSoFar (drop i (meanings_in alphabet definitions.now)) (meanings_in alphabet definitions.now) made }
    ensures made { IfOk result (λ r. AreSoFar (drop (i + 1) (meanings_in alphabet definitions.now)) (meanings_in alphabet definitions.now) r) }
    ensures refused { IfErr result (λ f. IsRefusal (first_limit [] (meanings_in alphabet definitions.now)) f) }
{
    let d = &definitions[i];
    let earlier = before(definitions, i);
    let known = sizes_before(sizes, i);
    let r = step(alloc, alphabet, earlier, d, known, made)?;
    Ok(r)
}

// No entry is made so far.
#[tactic(auto, using(crate::proofs::EntryLaws::so_far_begins))]
fn begun_with(alloc: Global, alphabet: Alphabet, definitions: &[Definition]) -> Rewritten
    ensures { AreSoFar (meanings_in alphabet definitions.now) (meanings_in alphabet definitions.now) result }
{
    let _ = definitions;
    let _ = alphabet;
    Rewritten {
        entries: List::new(alloc),
        conditions: List::new(alloc),
    }
}

// All that is promised, at the end.
fn ended(alphabet: Alphabet, definitions: &[Definition], made: Rewritten) -> Rewritten
    requires { AreSoFar (drop (length definitions.now) (meanings_in alphabet definitions.now)) (meanings_in alphabet definitions.now) made }
    ensures entries { map made_of result.entries ≡ entries [] (meanings_in alphabet definitions.now) }
    ensures conditions { result.conditions ≡ all_conditions [] (meanings_in alphabet definitions.now) }
    ensures within { first_limit [] (meanings_in alphabet definitions.now) ≡ None }
    ensures made { All (λ e. IsMade (made_of e)) result.entries }
    ensures few { length result.conditions ≤ 8 }
    ensures differ { AreDifferent (map (λ (a : ActionId). a.0) result.conditions) }
    ensures known { All (λ (e : entry_type.Entry). All (IsNumber (length result.conditions)) (flat_map conditions_in (trees_of (root_of e.root)))) result.entries }
{
    let _ = definitions;
    let _ = alphabet;
    made
}

fn all_entries(
    alloc: Global,
    alphabet: Alphabet,
    definitions: &[Definition],
    sizes: &[Size],
) -> Result<Rewritten, RewriteFault>
    requires { AreSizes alphabet definitions.now sizes.now }
    ensures entries { IfOk result (λ r. map made_of r.entries ≡ entries [] (meanings_in alphabet definitions.now)) }
    ensures conditions { IfOk result (λ r. r.conditions ≡ all_conditions [] (meanings_in alphabet definitions.now)) }
    ensures within { IfOk result (λ r. first_limit [] (meanings_in alphabet definitions.now) ≡ None) }
    ensures made { IfOk result (λ r. All (λ e. IsMade (made_of e)) r.entries) }
    ensures few { IfOk result (λ r. length r.conditions ≤ 8) }
    ensures differ { IfOk result (λ r. AreDifferent (map (λ (a : ActionId). a.0) r.conditions)) }
    ensures known { IfOk result (λ r. All (λ (e : entry_type.Entry). All (IsNumber (length r.conditions)) (flat_map conditions_in (trees_of (root_of e.root)))) r.entries) }
    ensures refused { IfErr result (λ f. IsRefusal (first_limit [] (meanings_in alphabet definitions.now)) f) }
{
    let mut made = begun_with(alloc, alphabet, definitions);
    for i in 0..definitions.len() {
        made = turn(alloc, alphabet, definitions, sizes, i, made)?;
    }
    Ok(ended(alphabet, definitions, made))
}

/// The entries of a machine, with all names followed and all operators rewritten (the guide's sections 2.3, 2.5, 3.1, 3.2
/// and 6.5; the order of the walk that gives the stamps is this profile's).
///
/// The patterns of a scanner are walked in text order, as one expression is: their stamps, priority names and conditions
/// go on from pattern to pattern (the guide's section 6.3; the walk is this profile's). A scanner is a node behind those
/// of its patterns, at its `|*`, and no deeper than the deepest of them.
///
/// Any draft is taken. As a name, the number of no earlier definition stands for no word, at the place 0:0, and so does
/// that of a scanner (this profile's: both are refused before a source is rewritten). Where the sets of the draft are in
/// order and in its alphabet, so are those of the trees. A scanner has as many patterns as the draft says, so that where
/// each of the draft's scanners has one, so does each entry that is one.
///
/// The answer is `Limit` exactly where an entry has more than 100,000 nodes (L4), is more than 2,000 deep (L5), or brings
/// a ninth condition (L7): the first such entry in text order, with the first of these limits, at the entry's name. It is
/// `Memory` only where memory is wanting.
pub fn rewrite(alloc: Global, draft: &Draft) -> Result<Rewritten, RewriteFault>
    ensures entries { IfOk result (λ r. map made_of r.entries ≡ entries [] (meanings draft.now)) }
    ensures conditions { IfOk result (λ r. r.conditions ≡ all_conditions [] (meanings draft.now)) }
    ensures within { IfOk result (λ r. first_limit [] (meanings draft.now) ≡ None) }
    ensures made { IfOk result (λ r. All (λ e. IsMade (made_of e)) r.entries) }
    ensures few { IfOk result (λ r. length r.conditions ≤ 8) }
    ensures differ { IfOk result (λ r. AreDifferent (map (λ (a : ActionId). a.0) r.conditions)) }
    ensures known { IfOk result (λ r. All (λ (e : entry_type.Entry). All (IsNumber (length r.conditions)) (flat_map conditions_in (trees_of (root_of e.root)))) r.entries) }
    ensures sets { IfOk result (λ r. HasSetsInForm draft.now → All (λ (e : entry_type.Entry). All (IsSet draft.now.alphabet) (flat_map sets_in (trees_of (root_of e.root)))) r.entries) }
    ensures patterns { IfOk result (λ r. HasScannersInForm draft.now → All (λ (e : entry_type.Entry). HasPatterns (root_of e.root)) r.entries) }
    ensures refused { IfErr result (λ f. Refuses draft.now f) }
{
    let definitions = draft.definitions.as_slice();
    let Ok(sizes) = table(alloc, draft.alphabet, definitions) else {
        return Err(RewriteFault::Memory);
    };
    let r = all_entries(alloc, draft.alphabet, definitions, sizes.as_slice())?;
    Ok(r)
}

// Whether names and numbers differ.
ghost use Rattle.std.specs.Prelude.{◌≡◌, ◌∷◌, ◌++◌, [], ◌↔◌, IsTrue, IfOk, map, true, false};
ghost use Rattle.rl_sets.specs.Sets.{In};
ghost use Rattle.rl_automata.specs.Refused.{AreDifferent};
ghost use Rattle.rl_model.specs.declared.spec.Entry as entry;
ghost use Rattle.rl_model.specs.declared.spec.ActionDef as action;
ghost use Rattle.rl_types.specs.declared.numbers.ActionId as number;
ghost use Rattle.rl_form.specs.Parts.{AreApart};
ghost use Rattle.rl_form.specs.Texts.{texts};

use indexmap::IndexSet;
use rl_model::{ActionDef, Entry, Spec};
use rl_types::{ActionId, Memory, Name};
use std::alloc::Global;

/// The names of entries.
pub(crate) type Names<'a> = IndexSet<&'a [u8]>;

// Notes a name, unless it is there, and says whether it was new.
fn note<'a>(set: &mut Names<'a>, name: &'a Name) -> Result<bool, Memory>
    ensures new { IfOk result (λ b. b ≡ true → In name.now (texts set.old) → ⊥) }
    ensures known { IfOk result (λ b. b ≡ false → In name.now (texts set.old)) }
    ensures noted { IfOk result (λ b. b ≡ true → texts set.new ≡ texts set.old ++ name.now ∷ []) }
{
    match set.insert(name.bytes()) {
        Ok(is_new) => Ok(is_new),
        Err(_) => Err(Memory),
    }
}

fn do_entries_differ(alloc: Global, entries: &[Entry]) -> Result<bool, Memory>
    ensures { IfOk result (λ b. IsTrue b ↔ AreDifferent (map (λ (e : entry.Entry). e.name) entries.now)) }
{
    let mut names = IndexSet::new(alloc);
    for e in entries {
        let is_new = note(&mut names, &e.name)?;
        if !is_new {
            return Ok(false);
        }
    }
    Ok(true)
}

// The names of entries, no two of which are the same, in order.
pub(crate) fn entry_names<'a>(alloc: Global, entries: &'a [Entry]) -> Result<Names<'a>, Memory>
    requires { AreDifferent (map (λ (e : entry.Entry). e.name) entries.now) }
    ensures { IfOk result (λ names. texts names ≡ map (λ (e : entry.Entry). e.name) entries.now) }
{
    let mut names = IndexSet::new(alloc);
    for e in entries {
        let _is_new = note(&mut names, &e.name)?;
    }
    Ok(names)
}

fn do_actions_differ(alloc: Global, actions: &[ActionDef]) -> Result<bool, Memory>
    ensures { IfOk result (λ b. IsTrue b ↔ AreDifferent (map (λ (a : action.ActionDef). a.name) actions.now)) }
{
    let mut names = IndexSet::new(alloc);
    for a in actions {
        let is_new = note(&mut names, &a.name)?;
        if !is_new {
            return Ok(false);
        }
    }
    Ok(true)
}

fn is_among(actions: &[ActionId], a: ActionId) -> bool
    ensures { IsTrue result ↔ In a.0 (map (λ (c : number.ActionId). c.0) actions.now) }
{
    match actions {
        [] => false,
        [first, rest @ ..] => first.0 == a.0 || is_among(rest, a),
    }
}

// Whether the actions of conditions differ, which are few.
fn do_conditions_differ(actions: &[ActionId]) -> bool
    ensures { IsTrue result ↔ AreDifferent (map (λ (c : number.ActionId). c.0) actions.now) }
{
    match actions {
        [] => true,
        [first, rest @ ..] => !is_among(rest, *first) && do_conditions_differ(rest),
    }
}

// Whether no two of a kind have one name, and no two conditions one action.
pub(crate) fn are_apart(alloc: Global, spec: &Spec) -> Result<bool, Memory>
    ensures { IfOk result (λ b. IsTrue b ↔ AreApart spec.now) }
{
    if !do_conditions_differ(spec.conds.as_slice()) {
        return Ok(false);
    }
    if !do_entries_differ(alloc, spec.entries.as_slice())? {
        return Ok(false);
    }
    do_actions_differ(alloc, spec.actions.as_slice())
}

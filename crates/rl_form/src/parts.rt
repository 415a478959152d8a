// The parts of a Spec, each by itself.
ghost use Rattle.std.specs.Prelude.{◌≡◌, ◌↔◌, IsTrue, IfSome, All, length};
ghost use Rattle.rl_types.specs.declared.numbers.ActionId as number;
ghost use Rattle.rl_automata.specs.Nodes.{node_of};
ghost use Rattle.rl_model.specs.WellFormed.{IsNumber};
ghost use Rattle.rl_form.specs.Parts.{HasFile, IsTree, IsPattern, IsScanner, IsRoot, IsEntry, IsAction, IsWrite, IsCondition, AreFew, AreSound, scope_of};

use crate::expressions::{is_number, is_sound};
use crate::scope::Scope;
use crate::sizes::{has_nodes, have_nodes, is_within};
use crate::statements::outer_statements;
use rl_arrays::{is_action_name, is_name};
use rl_automata::Tree;
use rl_model::{ActionDef, Entry, Pattern, Root, Spec, Write};
use rl_types::{ActionId, MOST_CONDITIONS, MOST_NAMES, MOST_NODES, Place};

fn has_file(files: usize, place: &Place) -> bool
    ensures { IsTrue result ↔ HasFile files place.now }
{
    place.file < files as u64
}

fn have_files(files: usize, places: &[Place]) -> bool
    ensures { IsTrue result ↔ All (HasFile files) places.now }
{
    places.iter().all(|place| has_file(files, place))
}

// Whether the expression is not too deep, has so many nodes, and all of them are sound. Its depth is looked at first,
// so that no walk goes deeper.
fn is_tree(scope: &Scope, nodes: usize, t: &Tree) -> bool
    ensures { IsTrue result ↔ IsTree scope.now nodes (node_of t.now) }
{
    is_within(t, 1999) && has_nodes(t, nodes) && is_sound(scope, t)
}

// Whether there is no action, or it is one of so many.
fn is_token(actions: usize, token: Option<ActionId>) -> bool
    ensures { IsTrue result ↔ IfSome token (λ (a : number.ActionId). IsNumber actions a.0) }
{
    match token {
        Some(action) => is_number(actions, action.0),
        None => true,
    }
}

// Whether the pattern is as is asked. The depth of its expression is looked at first, as with entries.
fn is_pattern(scope: &Scope, p: &Pattern) -> bool
    ensures { IsTrue result ↔ IsPattern scope.now p.now }
{
    is_within(&p.tree, 1999)
        && is_sound(scope, &p.tree)
        && is_token(scope.actions, p.token)
        && has_file(scope.files, &p.place)
}

fn are_patterns(scope: &Scope, patterns: &[Pattern]) -> bool
    ensures { IsTrue result ↔ All (IsPattern scope.now) patterns.now }
{
    patterns.iter().all(|p| is_pattern(scope, p))
}

// Whether there are patterns, each as is asked, with so many nodes, the scanner's own among them.
fn is_scanner(scope: &Scope, nodes: usize, patterns: &[Pattern]) -> bool
    ensures { IsTrue result ↔ IsScanner scope.now nodes patterns.now }
{
    !patterns.is_empty() && are_patterns(scope, patterns) && have_nodes(patterns, nodes)
}

fn is_root(scope: &Scope, nodes: usize, root: &Root) -> bool
    ensures { IsTrue result ↔ IsRoot scope.now nodes root.now }
{
    match root {
        Root::Plain(t) => is_tree(scope, nodes, t),
        Root::Scanner(patterns) => is_scanner(scope, nodes, patterns.as_slice()),
    }
}

fn is_entry(scope: &Scope, e: &Entry) -> bool
    ensures { IsTrue result ↔ IsEntry scope.now e.now }
{
    is_name(e.name.bytes())
        && e.places.len() <= MOST_NODES as usize
        && is_root(scope, e.places.len(), &e.root)
        && have_files(scope.files, e.places.as_slice())
}

fn are_entries(scope: &Scope, entries: &[Entry]) -> bool
    ensures { IsTrue result ↔ All (IsEntry scope.now) entries.now }
{
    entries.iter().all(|e| is_entry(scope, e))
}

fn is_action(files: usize, a: &ActionDef) -> bool
    ensures { IsTrue result ↔ IsAction files a.now }
{
    is_action_name(a.name.bytes())
        && outer_statements(a.statements.as_slice()) <= 4
        && has_file(files, &a.place)
}

fn are_actions(files: usize, actions: &[ActionDef]) -> bool
    ensures { IsTrue result ↔ All (IsAction files) actions.now }
{
    actions.iter().all(|a| is_action(files, a))
}

fn are_writes(files: usize, writes: &[Write]) -> bool
    ensures { IsTrue result ↔ All (IsWrite files) writes.now }
{
    writes.iter().all(|w| has_file(files, &w.place))
}

fn are_conditions(actions: usize, conditions: &[ActionId]) -> bool
    ensures { IsTrue result ↔ All (IsCondition actions) conditions.now }
{
    conditions.iter().all(|c| is_number(actions, c.0))
}

// Whether there are entries, and not too many of anything.
pub(crate) fn are_few(spec: &Spec) -> bool
    ensures { IsTrue result ↔ AreFew spec.now }
{
    spec.entries.len() >= 1
        && spec.entries.len() <= 65_536
        && spec.actions.len() <= MOST_NAMES as usize
        && spec.conds.len() <= MOST_CONDITIONS
}

fn scope_of(spec: &Spec) -> Scope
    ensures { result ≡ scope_of spec.now }
{
    Scope {
        alphabet: spec.alphabet,
        actions: spec.actions.len(),
        conditions: spec.conds.len(),
        files: spec.files.len(),
    }
}

// Whether each part is as is asked.
pub(crate) fn are_sound(spec: &Spec) -> bool
    ensures { IsTrue result ↔ AreSound spec.now }
{
    is_name(spec.machine.bytes())
        && are_entries(&scope_of(spec), spec.entries.as_slice())
        && are_actions(spec.files.len(), spec.actions.as_slice())
        && are_conditions(spec.actions.len(), spec.conds.as_slice())
        && are_writes(spec.files.len(), spec.writes.as_slice())
}

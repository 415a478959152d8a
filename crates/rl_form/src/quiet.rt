// Actions without control statements.
ghost use Rattle.std.specs.Prelude.{◌↔◌, IsTrue, All};
ghost use Rattle.rl_types.specs.declared.numbers.ActionId as number;
ghost use Rattle.rl_automata.specs.Nodes.{node_of};
ghost use Rattle.rl_model.specs.declared.spec.Entry as entry;
ghost use Rattle.rl_model.specs.declared.spec.Pattern as pattern;
ghost use Rattle.rl_form.specs.Parts.{AreQuiet, IsQuiet, IsQuietRoot, HasQuietActions, HasQuietLabel, HasQuietMark, HasQuietTurns};

use rl_automata::{Kind, Label, Tree};
use rl_model::{ActionDef, Entry, Pattern, Root, Spec};
use rl_types::ActionId;

// Whether the action with this number, from 1, has no control statement.
fn is_quiet(actions: &[ActionDef], n: u32) -> bool
    ensures { IsTrue result ↔ IsQuiet actions.now n }
{
    if n == 0 {
        return true;
    }
    match actions.get(n as usize - 1) {
        Some(action) => action.statements.is_empty(),
        None => true,
    }
}

// Whether it is no to-state or from-state action, or has no control statement.
fn has_quiet_mark(actions: &[ActionDef], kind: Kind, action: ActionId) -> bool
    ensures { IsTrue result ↔ HasQuietMark actions.now kind action.0 }
{
    match kind {
        Kind::To => is_quiet(actions, action.0),
        Kind::From => is_quiet(actions, action.0),
        Kind::Eof => true,
        Kind::Error => true,
    }
}

// Whether the to-state and from-state actions of the expression have no control statements.
fn has_quiet_turns(actions: &[ActionDef], t: &Tree) -> bool
    ensures { IsTrue result ↔ HasQuietTurns actions.now (node_of t.now) }
{
    match t {
        Tree::Set(_) => true,
        Tree::Null => true,
        Tree::Nothing => true,
        Tree::Union(a, b) => has_quiet_turns(actions, a) && has_quiet_turns(actions, b),
        Tree::And(a, b) => has_quiet_turns(actions, a) && has_quiet_turns(actions, b),
        Tree::Minus(a, b) => has_quiet_turns(actions, a) && has_quiet_turns(actions, b),
        Tree::Cat(a, b) => has_quiet_turns(actions, a) && has_quiet_turns(actions, b),
        Tree::Star(a, _) => has_quiet_turns(actions, a),
        Tree::Enter(a, _) => has_quiet_turns(actions, a),
        Tree::Finish(a, _) => has_quiet_turns(actions, a),
        Tree::All(a, _) => has_quiet_turns(actions, a),
        Tree::Leave(a, _) => has_quiet_turns(actions, a),
        Tree::Mark(a, _, kind, _, action) => {
            has_quiet_mark(actions, *kind, *action) && has_quiet_turns(actions, a)
        }
        Tree::When(a, _) => has_quiet_turns(actions, a),
    }
}

// Whether the label is no action, or its action has no control statement.
fn has_quiet_label(actions: &[ActionDef], label: &Label) -> bool
    ensures { IsTrue result ↔ HasQuietLabel actions.now label.now }
{
    match label {
        Label::Action(_, action) => is_quiet(actions, action.0),
        Label::Prior(_, _, _) => true,
    }
}

// Whether the actions that the expression embeds have no control statements.
fn has_quiet_actions(actions: &[ActionDef], t: &Tree) -> bool
    ensures { IsTrue result ↔ HasQuietActions actions.now (node_of t.now) }
{
    match t {
        Tree::Set(_) => true,
        Tree::Null => true,
        Tree::Nothing => true,
        Tree::Union(a, b) => has_quiet_actions(actions, a) && has_quiet_actions(actions, b),
        Tree::And(a, b) => has_quiet_actions(actions, a) && has_quiet_actions(actions, b),
        Tree::Minus(a, b) => has_quiet_actions(actions, a) && has_quiet_actions(actions, b),
        Tree::Cat(a, b) => has_quiet_actions(actions, a) && has_quiet_actions(actions, b),
        Tree::Star(a, _) => has_quiet_actions(actions, a),
        Tree::Enter(a, label) => has_quiet_label(actions, label) && has_quiet_actions(actions, a),
        Tree::Finish(a, label) => has_quiet_label(actions, label) && has_quiet_actions(actions, a),
        Tree::All(a, label) => has_quiet_label(actions, label) && has_quiet_actions(actions, a),
        Tree::Leave(a, label) => has_quiet_label(actions, label) && has_quiet_actions(actions, a),
        Tree::Mark(a, _, _, _, action) => {
            is_quiet(actions, action.0) && has_quiet_actions(actions, a)
        }
        Tree::When(a, _) => has_quiet_actions(actions, a),
    }
}

fn are_quiet_patterns(actions: &[ActionDef], patterns: &[Pattern]) -> bool
    ensures { IsTrue result ↔ All (λ (p : pattern.Pattern). HasQuietActions actions.now (node_of p.tree)) patterns.now }
{
    patterns.iter().all(|p| has_quiet_actions(actions, &p.tree))
}

fn is_quiet_root(actions: &[ActionDef], root: &Root) -> bool
    ensures { IsTrue result ↔ IsQuietRoot actions.now root.now }
{
    match root {
        Root::Plain(t) => has_quiet_turns(actions, t),
        Root::Scanner(patterns) => are_quiet_patterns(actions, patterns.as_slice()),
    }
}

fn are_quiet_roots(actions: &[ActionDef], entries: &[Entry]) -> bool
    ensures { IsTrue result ↔ All (λ (e : entry.Entry). IsQuietRoot actions.now e.root) entries.now }
{
    entries.iter().all(|e| is_quiet_root(actions, &e.root))
}

fn are_quiet_conditions(actions: &[ActionDef], conditions: &[ActionId]) -> bool
    ensures { IsTrue result ↔ All (λ (c : number.ActionId). IsQuiet actions.now c.0) conditions.now }
{
    conditions.iter().all(|c| is_quiet(actions, c.0))
}

// Whether conditions, to-state and from-state actions and those in patterns have no control statements. It goes as deep
// as the expressions are.
pub(crate) fn are_quiet(spec: &Spec) -> bool
    ensures { IsTrue result ↔ AreQuiet spec.now }
{
    are_quiet_conditions(spec.actions.as_slice(), spec.conds.as_slice())
        && are_quiet_roots(spec.actions.as_slice(), spec.entries.as_slice())
}

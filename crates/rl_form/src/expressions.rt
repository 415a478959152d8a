// The sets, stamps, actions and conditions of expressions.
ghost use Rattle.std.specs.Prelude.{◌≡◌, ◌&&◌, ◌≤◌, ◌↔◌, IsTrue, All, length};
ghost use Rattle.rl_types.specs.Limits.{most_nodes};
ghost use Rattle.rl_types.specs.Alphabet.{has_key};
ghost use Rattle.rl_automata.specs.Nodes.{node_of};
ghost use Rattle.rl_model.specs.WellFormed.{IsNumber, IsInAlphabet};
ghost use Rattle.rl_form.specs.Parts.{IsLabel, IsSet, IsSound};

use crate::scope::Scope;
use rl_automata::{Label, Tree};
use rl_types::{Alphabet, KeyRange, MOST_NODES};

// Whether it is the number of one of so many things, which count from 1.
pub(crate) fn is_number(count: usize, n: u32) -> bool
    ensures { IsTrue result ↔ IsNumber count n }
{
    1 <= n && n as usize <= count
}

fn is_stamp(n: u32) -> bool
    ensures { IsTrue result ↔ IsNumber most_nodes n }
{
    1 <= n && n <= MOST_NODES
}

// Whether the alphabet has the key.
fn has_key(alphabet: Alphabet, key: i64) -> bool
    ensures { result ≡ has_key alphabet key }
{
    alphabet.least_key() <= key && key <= alphabet.greatest_key()
}

// Whether both ends of the range are keys of the alphabet.
fn is_in_alphabet(alphabet: Alphabet, range: &KeyRange) -> bool
    ensures { IsTrue result ↔ IsInAlphabet alphabet range.now }
{
    has_key(alphabet, range.lo()) && has_key(alphabet, range.hi())
}

fn are_in_alphabet(alphabet: Alphabet, ranges: &[KeyRange]) -> bool
    ensures { IsTrue result ↔ All (IsInAlphabet alphabet) ranges.now }
{
    ranges.iter().all(|r| is_in_alphabet(alphabet, r))
}

// Whether there are few ranges, of keys of the alphabet.
fn is_set(scope: &Scope, ranges: &[KeyRange]) -> bool
    ensures { IsTrue result ↔ IsSet scope.now ranges.now }
{
    ranges.len() <= 256 && are_in_alphabet(scope.alphabet, ranges)
}

// Whether the stamp is a stamp, and the action one of the actions.
fn is_label(scope: &Scope, label: &Label) -> bool
    ensures { IsTrue result ↔ IsLabel scope.now label.now }
{
    match label {
        Label::Action(stamp, action) => is_stamp(*stamp) && is_number(scope.actions, action.0),
        Label::Prior(stamp, _, _) => is_stamp(*stamp),
    }
}

// Whether the sets, stamps, actions and conditions of the expression are as is asked.
pub(crate) fn is_sound(scope: &Scope, t: &Tree) -> bool
    ensures { IsTrue result ↔ IsSound scope.now (node_of t.now) }
{
    match t {
        Tree::Set(ranges) => is_set(scope, ranges.as_slice()),
        Tree::Null => true,
        Tree::Nothing => true,
        Tree::Union(a, b) => is_sound(scope, a) && is_sound(scope, b),
        Tree::And(a, b) => is_sound(scope, a) && is_sound(scope, b),
        Tree::Minus(a, b) => is_sound(scope, a) && is_sound(scope, b),
        Tree::Cat(a, b) => is_sound(scope, a) && is_sound(scope, b),
        Tree::Star(a, stamp) => is_stamp(*stamp) && is_sound(scope, a),
        Tree::Enter(a, label) => is_label(scope, label) && is_sound(scope, a),
        Tree::Finish(a, label) => is_label(scope, label) && is_sound(scope, a),
        Tree::All(a, label) => is_label(scope, label) && is_sound(scope, a),
        Tree::Leave(a, label) => is_label(scope, label) && is_sound(scope, a),
        Tree::Mark(a, _, _, stamp, action) => {
            is_stamp(*stamp) && is_number(scope.actions, action.0) && is_sound(scope, a)
        }
        Tree::When(a, condition) => {
            is_number(scope.conditions, u32::from(condition.0)) && is_sound(scope, a)
        }
    }
}

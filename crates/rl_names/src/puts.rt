// What is embedded in an operand, and how it is repeated, negated and joined.
ghost use Rattle.std.specs.Prelude.{◌≡◌, map, MatchResult};
ghost use Rattle.rl_grammar.specs.declared.read_fault.ReadFault.TheVariants as reason;
ghost use Rattle.rl_names.specs.Actions as actions;
ghost use Rattle.rl_names.specs.Answers.{Gives, each};
ghost use Rattle.rl_names.specs.Expressions as expressions;
ghost use Rattle.rl_names.specs.Places as places;
ghost use Rattle.rl_names.specs.Scopes.{kept};

use crate::actions::anonymous_name;
use crate::memory::{fault_at, push};
use crate::numbers::{count_of, number_of};
use crate::places::number_place;
use crate::scope::Scope;
use crate::texts;
use rl_automata::{Class, Kind};
use rl_draft::{Bounds, Join, Negation, NegationSign, Put, Repetition, Transitions};
use rl_grammar::ReadFault;
use rl_grammar::syntax::{
    ActionUse, Bounds as Braces, ConcatenationSign, Embedding, Label, NamedPriority,
    Negation as Refusing, Number, Priority, Repetition as Repeating, StateClass, StateKind,
    TransitionSign, UnionSign, Word,
};
use rl_types::{ActionId, FaultKind, List, Place};
use std::alloc::Global;

fn action_id(index: usize) -> Result<ActionId, ReadFault>
    ensures { Gives (expressions.action_at index) result }
{
    let Ok(before) = u32::try_from(index) else {
        return Err(ReadFault::Memory);
    };
    match before.checked_add(1) {
        Some(number) => Ok(ActionId(number)),
        None => Err(ReadFault::Memory),
    }
}

fn action_named(scope: &Scope<'_>, place: Place, name: &[u8]) -> Result<ActionId, ReadFault>
    ensures { Gives (expressions.action_named (kept scope.now) place name.now) result }
{
    let index = texts::number_of(scope.actions, place, name)?;
    action_id(index)
}

fn action_of_word(scope: &Scope<'_>, word: &Word) -> Result<ActionId, ReadFault>
    ensures { Gives (expressions.action_named (kept scope.now) word.now.place word.now.text) result }
{
    action_named(scope, word.place, word.text.as_slice())
}

fn anonymous(alloc: Global, scope: &Scope<'_>, code: &Word) -> Result<ActionId, ReadFault>
    ensures { Gives (expressions.action_named (kept scope.now) code.now.place (actions.anonymous_name code.now.place)) result }
{
    let name = anonymous_name(alloc, code.place)?;
    action_named(scope, code.place, name.as_slice())
}

/// The action that is used.
pub fn action(alloc: Global, scope: &Scope<'_>, action: &ActionUse) -> Result<ActionId, ReadFault>
    ensures { Gives (expressions.action_read (kept scope.now) action.now) result }
{
    match action {
        ActionUse::Name(word) => action_of_word(scope, word),
        ActionUse::Group(_, word, _) => action_of_word(scope, word),
        ActionUse::Code(code) => anonymous(alloc, scope, code),
    }
}

fn transitions_of(sign: TransitionSign) -> Transitions
    ensures { result ≡ expressions.transitions_of sign }
{
    match sign {
        TransitionSign::Entering(_) => Transitions::Entering,
        TransitionSign::Finishing(_) => Transitions::Finishing,
        TransitionSign::All(_) => Transitions::All,
        TransitionSign::Leaving(_) => Transitions::Leaving,
    }
}

fn class_of(class: StateClass) -> Class
    ensures { result ≡ expressions.class_of class }
{
    match class {
        StateClass::Start => Class::Start,
        StateClass::NotStart => Class::NotStart,
        StateClass::All => Class::All,
        StateClass::Final => Class::Final,
        StateClass::NotFinal => Class::NotFinal,
        StateClass::Middle => Class::Middle,
    }
}

fn kind_of(kind: StateKind) -> Kind
    ensures { result ≡ expressions.kind_of kind }
{
    match kind {
        StateKind::To => Kind::To,
        StateKind::From => Kind::From,
        StateKind::Eof => Kind::Eof,
        StateKind::Error => Kind::Error,
    }
}

fn prioritized(
    scope: &Scope<'_>,
    transitions: Transitions,
    place: Place,
    name: &[u8],
    number: &Number,
) -> Result<Put, ReadFault>
    ensures { Gives (expressions.prioritized (kept scope.now) transitions place name.now number.now) result }
{
    let index = texts::number_of(scope.priorities, place, name)?;
    let value = number_of(number)?;
    match u32::try_from(index) {
        Ok(name) => Ok(Put::Priority(transitions, name, value)),
        Err(_) => Err(ReadFault::Memory),
    }
}

fn plain(scope: &Scope<'_>, transitions: Transitions, number: &Number) -> Result<Put, ReadFault>
    ensures { Gives (expressions.prioritized (kept scope.now) transitions (places.number_place number.now) scope.now.owner.now number.now) result }
{
    prioritized(
        scope,
        transitions,
        number_place(number),
        scope.owner,
        number,
    )
}

fn named(
    scope: &Scope<'_>,
    transitions: Transitions,
    priority: &NamedPriority,
) -> Result<Put, ReadFault>
    ensures { Gives (expressions.prioritized (kept scope.now) transitions priority.now.name.place priority.now.name.text priority.now.value) result }
{
    prioritized(
        scope,
        transitions,
        priority.name.place,
        priority.name.text.as_slice(),
        &priority.value,
    )
}

/// A plain number has the name of the definition that it stands in.
fn priority(
    scope: &Scope<'_>,
    transitions: Transitions,
    priority: &Priority,
) -> Result<Put, ReadFault>
    ensures { Gives (expressions.priority_read (kept scope.now) transitions priority.now) result }
{
    match priority {
        Priority::Plain(number) => plain(scope, transitions, number),
        Priority::Named(one) => named(scope, transitions, one),
    }
}

fn label(
    alloc: Global,
    scope: &Scope<'_>,
    transitions: Transitions,
    label: &Label,
) -> Result<Put, ReadFault>
    ensures { Gives (expressions.label_read (kept scope.now) transitions label.now) result }
{
    match label {
        Label::Action(used) => {
            let number = action(alloc, scope, used)?;
            Ok(Put::Action(transitions, number))
        }
        Label::Priority(one) => priority(scope, transitions, one),
    }
}

fn put(alloc: Global, scope: &Scope<'_>, embedding: &Embedding) -> Result<Put, ReadFault>
    ensures { Gives (expressions.put_read (kept scope.now) embedding.now) result }
{
    match embedding {
        Embedding::Transition(sign, one) => label(alloc, scope, transitions_of(*sign), one),
        Embedding::State(mark, used) => {
            let number = action(alloc, scope, used)?;
            Ok(Put::Mark(class_of(mark.class), kind_of(mark.kind), number))
        }
        Embedding::When(_, used) => {
            let number = action(alloc, scope, used)?;
            Ok(Put::When(number))
        }
    }
}

/// What is embedded, in order of appearance.
pub fn puts(alloc: Global, scope: &Scope<'_>, all: &[Embedding]) -> Result<List<Put>, ReadFault>
    ensures { Gives (each (expressions.put_read (kept scope.now)) all.now) result }
{
    let mut found = List::new(alloc);
    for one in all {
        let read = put(alloc, scope, one)?;
        push(&mut found, read)?;
    }
    Ok(found)
}

fn bounds(braces: &Braces) -> Result<Bounds, ReadFault>
    ensures { Gives (expressions.bounds_read braces.now) result }
{
    match braces {
        Braces::AtMost(_, most) => {
            let most = count_of(most)?;
            Ok(Bounds {
                least: 0,
                most: Some(most),
            })
        }
        Braces::Exactly(times) => {
            let times = count_of(times)?;
            Ok(Bounds {
                least: times,
                most: Some(times),
            })
        }
        Braces::AtLeast(least, _) => {
            let least = count_of(least)?;
            Ok(Bounds { least, most: None })
        }
        Braces::Between(least, _, most) => {
            let least = count_of(least)?;
            let most = count_of(most)?;
            Ok(Bounds {
                least,
                most: Some(most),
            })
        }
    }
}

fn counted_by(opening: Place, bounds: Bounds) -> Result<Repetition, ReadFault>
    ensures { Gives (expressions.counted_by opening bounds) result }
{
    match bounds.most {
        Some(most) if bounds.least > most => Err(fault_at(FaultKind::F10, opening)),
        _ => Ok(Repetition::Count(bounds)),
    }
}

fn repetition(repetition: &Repeating) -> Result<Repetition, ReadFault>
    ensures { Gives (expressions.repetition_read repetition.now) result }
{
    match repetition {
        Repeating::Star(_) => Ok(Repetition::Star),
        Repeating::LongestStar(_) => Ok(Repetition::LongestStar),
        Repeating::Optional(_) => Ok(Repetition::Optional),
        Repeating::Plus(_) => Ok(Repetition::Plus),
        Repeating::Count(count) => {
            let read = bounds(&count.bounds)?;
            counted_by(count.opening, read)
        }
    }
}

/// Repetitions, the innermost first.
pub fn repetitions(alloc: Global, all: &[Repeating]) -> Result<List<Repetition>, ReadFault>
    ensures { Gives (each expressions.repetition_read all.now) result }
{
    let mut found = List::new(alloc);
    for one in all {
        let read = repetition(one)?;
        push(&mut found, read)?;
    }
    Ok(found)
}

fn negation_of(negation: &Refusing) -> NegationSign
    ensures { result ≡ expressions.negation_of negation.now }
{
    match negation {
        Refusing::Language(place) => NegationSign {
            negation: Negation::Language,
            place: *place,
        },
        Refusing::Character(place) => NegationSign {
            negation: Negation::Character,
            place: *place,
        },
    }
}

/// Negations, the outermost first.
pub fn negations(alloc: Global, all: &[Refusing]) -> Result<List<NegationSign>, ReadFault>
    ensures { MatchResult result (λ read. read ≡ map expressions.negation_of all.now) (λ e. e ≡ reason.Memory) }
{
    let mut found = List::new(alloc);
    for one in all {
        push(&mut found, negation_of(one))?;
    }
    Ok(found)
}

/// How an operand is joined to the one before it by a sign, or by none.
pub fn joined_by(sign: Option<ConcatenationSign>) -> Join
    ensures { result ≡ expressions.joined_by sign }
{
    match sign {
        None | Some(ConcatenationSign::Plain(_)) => Join::Concatenation,
        Some(ConcatenationSign::LeftGuarded(_)) => Join::LeftGuarded,
        Some(ConcatenationSign::EntryGuarded(_)) => Join::EntryGuarded,
        Some(ConcatenationSign::FinishGuarded(_)) => Join::FinishGuarded,
    }
}

/// How an operand is joined to those before it.
pub fn united_by(sign: UnionSign) -> Join
    ensures { result ≡ expressions.united_by sign }
{
    match sign {
        UnionSign::Union(_) => Join::Union,
        UnionSign::Intersection(_) => Join::Intersection,
        UnionSign::Difference(_) => Join::Difference,
        UnionSign::StrongDifference(_) => Join::StrongDifference,
    }
}

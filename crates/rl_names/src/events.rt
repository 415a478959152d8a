// What a definition's value uses, in text order.
ghost use Rattle.std.specs.Prelude.{◌≡◌, ◌∷◌, [], ◌++◌, map, OnOk, MatchResult};
ghost use Rattle.rl_grammar.specs.declared.read_fault.ReadFault.TheVariants as reason;
ghost use Rattle.std.specs.List.{flat_map};
ghost use Rattle.rl_names.specs.Events as events;
ghost use Rattle.rl_names.specs.Uses as inner;

use crate::places::union_place;
use crate::values::scanner_of;
use rl_grammar::ReadFault;
use rl_grammar::syntax::{
    ActionUse, Concatenation, ConcatenationPart, Embedded, Embedding, Label, Operand, Pattern,
    PatternAction, Priority, Scanner, StateKind, Union, UnionPart, Word,
};
use rl_types::{Memory, Place};
use std::alloc::Global;

/// One of the things that an expression uses.
#[derive(Clone, Copy)]
pub enum Event<'a> {
    /// A literal, a number, a range, a set or a regular expression.
    Leaf(&'a Operand),
    /// The name of an expression.
    Name(&'a Word),
    /// The name of an action.
    Action(&'a Word),
    /// An action without a name.
    Code(&'a Word),
    /// The name of a priority.
    Priority(&'a Word),
    /// An action that may have no control statements: where it is asked for, and which it is.
    Quiet(Place, &'a ActionUse),
    /// An action that is embedded, or a condition.
    Embeds(&'a ActionUse),
    /// An end-of-file or error embedding.
    Ends(Place),
    /// The same in a pattern.
    Barred(Place),
    /// The name of an expression in a pattern that begins at this place.
    Taken(Place, &'a Word),
}

type Found<'a> = Vec<Event<'a>>;

fn push<'a>(found: &mut Found<'a>, event: Event<'a>) -> Result<(), Memory>
    ensures { OnOk result (map events.seen found.new.items ≡ map events.seen found.old.items ++ (events.seen event.entry ∷ [])) }
{
    found.push(event).map_err(|_| Memory)
}

fn used<'a>(found: &mut Found<'a>, action: &'a ActionUse) -> Result<(), Memory>
    ensures { OnOk result (map events.seen found.new.items ≡ map events.seen found.old.items ++ events.used action.now) }
{
    match action {
        ActionUse::Name(word) | ActionUse::Group(_, word, _) => push(found, Event::Action(word)),
        ActionUse::Code(word) => push(found, Event::Code(word)),
    }
}

fn embeds<'a>(found: &mut Found<'a>, action: &'a ActionUse) -> Result<(), Memory>
    ensures { OnOk result (map events.seen found.new.items ≡ map events.seen found.old.items ++ events.embedded action.now) }
{
    push(found, Event::Embeds(action))?;
    used(found, action)
}

fn labelled<'a>(found: &mut Found<'a>, label: &'a Label) -> Result<(), Memory>
    ensures { OnOk result (map events.seen found.new.items ≡ map events.seen found.old.items ++ events.labelled label.now) }
{
    match label {
        Label::Action(action) => embeds(found, action),
        Label::Priority(Priority::Plain(_)) => Ok(()),
        Label::Priority(Priority::Named(named)) => push(found, Event::Priority(&named.name)),
    }
}

/// To-state and from-state actions may have no control statements; end-of-file and error embeddings stand in no pattern.
fn marked<'a>(
    found: &mut Found<'a>,
    kind: StateKind,
    place: Place,
    action: &'a ActionUse,
) -> Result<(), Memory>
    ensures { OnOk result (map events.seen found.new.items ≡ map events.seen found.old.items ++ events.marked kind place action.now) }
{
    match kind {
        StateKind::To | StateKind::From => push(found, Event::Quiet(place, action)),
        StateKind::Eof | StateKind::Error => push(found, Event::Ends(place)),
    }
}

fn embedding<'a>(found: &mut Found<'a>, embedding: &'a Embedding) -> Result<(), Memory>
    ensures { OnOk result (map events.seen found.new.items ≡ map events.seen found.old.items ++ events.embedding_events embedding.now) }
{
    match embedding {
        Embedding::Transition(_, label) => labelled(found, label),
        Embedding::State(mark, action) => {
            marked(found, mark.kind, mark.place, action)?;
            embeds(found, action)
        }
        Embedding::When(place, action) => {
            push(found, Event::Quiet(*place, action))?;
            embeds(found, action)
        }
    }
}

fn embeddings<'a>(found: &mut Found<'a>, all: &'a [Embedding]) -> Result<(), Memory>
    ensures { OnOk result (map events.seen found.new.items ≡ map events.seen found.old.items ++ flat_map events.embedding_events all.now) }
{
    for one in all {
        embedding(found, one)?;
    }
    Ok(())
}

#[cycle(events)]
fn operand<'a>(found: &mut Found<'a>, operand: &'a Operand) -> Result<(), Memory>
    ensures { OnOk result (map events.seen found.new.items ≡ map events.seen found.old.items ++ events.operand_events operand.now) }
{
    match operand {
        Operand::Literal(_) => push(found, Event::Leaf(operand)),
        Operand::Number(_) => push(found, Event::Leaf(operand)),
        Operand::Range(_, _, _) => push(found, Event::Leaf(operand)),
        Operand::Set(_) => push(found, Event::Leaf(operand)),
        Operand::RegularExpression(_) => push(found, Event::Leaf(operand)),
        Operand::Name(word) => push(found, Event::Name(word)),
        Operand::Group(_, inner, _) => union(found, inner.get()),
        Operand::Scanner(_) => Ok(()),
    }
}

#[cycle(events)]
fn embedded<'a>(found: &mut Found<'a>, embedded: &'a Embedded) -> Result<(), Memory>
    ensures { OnOk result (map events.seen found.new.items ≡ map events.seen found.old.items ++ events.embedded_events embedded.now) }
{
    operand(found, &embedded.operand.operand.operand)?;
    embeddings(found, embedded.embeddings.as_slice())
}

#[cycle(events)]
fn concatenation_parts<'a>(
    found: &mut Found<'a>,
    parts: &'a [ConcatenationPart],
) -> Result<(), Memory>
    ensures { OnOk result (map events.seen found.new.items ≡ map events.seen found.old.items ++ flat_map inner.concatenation_part_uses parts.now) }
{
    for part in parts {
        embedded(found, &part.operand)?;
    }
    Ok(())
}

#[cycle(events)]
fn concatenation<'a>(found: &mut Found<'a>, concatenation: &'a Concatenation) -> Result<(), Memory>
    ensures { OnOk result (map events.seen found.new.items ≡ map events.seen found.old.items ++ events.concatenation_events concatenation.now) }
{
    embedded(found, &concatenation.first)?;
    concatenation_parts(found, concatenation.rest.as_slice())
}

#[cycle(events)]
fn union_parts<'a>(found: &mut Found<'a>, parts: &'a [UnionPart]) -> Result<(), Memory>
    ensures { OnOk result (map events.seen found.new.items ≡ map events.seen found.old.items ++ flat_map inner.union_part_uses parts.now) }
{
    for part in parts {
        concatenation(found, &part.operand)?;
    }
    Ok(())
}

#[cycle(events)]
fn union<'a>(found: &mut Found<'a>, union: &'a Union) -> Result<(), Memory>
    ensures { OnOk result (map events.seen found.new.items ≡ map events.seen found.old.items ++ events.union_events union.now) }
{
    concatenation(found, &union.first)?;
    union_parts(found, union.rest.as_slice())
}

// ---- scanners

fn token<'a>(found: &mut Found<'a>, action: &'a Option<PatternAction>) -> Result<(), Memory>
    ensures { OnOk result (map events.seen found.new.items ≡ map events.seen found.old.items ++ events.token_events action.now) }
{
    match action {
        Some(one) => used(found, &one.action),
        None => Ok(()),
    }
}

fn same_place(p: Place, q: Place) -> bool
    ensures { result ≡ events.same_place p q }
{
    p.file == q.file && p.line == q.line && p.col == q.col
}

/// A name that is a pattern's first token.
fn named_at<'a>(found: &mut Found<'a>, place: Place, event: &Event<'a>) -> Result<(), Memory>
    ensures { OnOk result (map events.seen found.new.items ≡ map events.seen found.old.items ++ events.named_at place (events.seen event.now)) }
{
    match event {
        Event::Name(word) => {
            if same_place(place, word.place) {
                push(found, Event::Name(word))
            } else {
                Ok(())
            }
        }
        Event::Leaf(_)
        | Event::Action(_)
        | Event::Code(_)
        | Event::Priority(_)
        | Event::Quiet(_, _)
        | Event::Embeds(_)
        | Event::Ends(_)
        | Event::Barred(_)
        | Event::Taken(_, _) => Ok(()),
    }
}

fn first_name<'a>(found: &mut Found<'a>, place: Place, own: &[Event<'a>]) -> Result<(), Memory>
    ensures { OnOk result (map events.seen found.new.items ≡ map events.seen found.old.items ++ events.first_name place (map events.seen own.now)) }
{
    match own.split_first() {
        Some((first, _)) => named_at(found, place, first),
        None => Ok(()),
    }
}

/// No action that a pattern embeds may have control statements.
fn calmed<'a>(found: &mut Found<'a>, place: Place, event: &Event<'a>) -> Result<(), Memory>
    ensures { OnOk result (map events.seen found.new.items ≡ map events.seen found.old.items ++ events.calmed place (events.seen event.now)) }
{
    match event {
        Event::Embeds(action) => push(found, Event::Quiet(place, action)),
        Event::Leaf(_)
        | Event::Name(_)
        | Event::Action(_)
        | Event::Code(_)
        | Event::Priority(_)
        | Event::Quiet(_, _)
        | Event::Ends(_)
        | Event::Barred(_)
        | Event::Taken(_, _) => Ok(()),
    }
}

fn all_calmed<'a>(found: &mut Found<'a>, place: Place, own: &[Event<'a>]) -> Result<(), Memory>
    ensures { OnOk result (map events.seen found.new.items ≡ map events.seen found.old.items ++ flat_map (events.calmed place) (map events.seen own.now)) }
{
    for one in own {
        calmed(found, place, one)?;
    }
    Ok(())
}

/// What an event is in a pattern.
fn in_pattern<'a>(found: &mut Found<'a>, place: Place, event: &Event<'a>) -> Result<(), Memory>
    ensures { OnOk result (map events.seen found.new.items ≡ map events.seen found.old.items ++ events.in_pattern place (events.seen event.now)) }
{
    match event {
        Event::Name(word) => {
            push(found, *event)?;
            push(found, Event::Taken(place, word))
        }
        Event::Ends(at) => push(found, Event::Barred(*at)),
        Event::Leaf(_)
        | Event::Action(_)
        | Event::Code(_)
        | Event::Priority(_)
        | Event::Quiet(_, _)
        | Event::Embeds(_)
        | Event::Barred(_)
        | Event::Taken(_, _) => push(found, *event),
    }
}

fn all_in_pattern<'a>(found: &mut Found<'a>, place: Place, own: &[Event<'a>]) -> Result<(), Memory>
    ensures { OnOk result (map events.seen found.new.items ≡ map events.seen found.old.items ++ flat_map (events.in_pattern place) (map events.seen own.now)) }
{
    for one in own {
        in_pattern(found, place, one)?;
    }
    Ok(())
}

fn uses_from<'a>(found: &mut Found<'a>, place: Place, own: &[Event<'a>]) -> Result<(), Memory>
    ensures { OnOk result (map events.seen found.new.items ≡ map events.seen found.old.items ++ events.uses_from place (map events.seen own.now)) }
{
    first_name(found, place, own)?;
    all_calmed(found, place, own)?;
    all_in_pattern(found, place, own)
}

fn pattern<'a>(alloc: Global, found: &mut Found<'a>, pattern: &'a Pattern) -> Result<(), Memory>
    ensures { OnOk result (map events.seen found.new.items ≡ map events.seen found.old.items ++ events.pattern_uses pattern.now) }
{
    let mut own = Vec::new(alloc);
    union(&mut own, &pattern.value)?;
    uses_from(found, union_place(&pattern.value), own.as_slice())?;
    token(found, &pattern.action)
}

fn patterns<'a>(alloc: Global, found: &mut Found<'a>, all: &'a [Pattern]) -> Result<(), Memory>
    ensures { OnOk result (map events.seen found.new.items ≡ map events.seen found.old.items ++ flat_map events.pattern_uses all.now) }
{
    for one in all {
        pattern(alloc, found, one)?;
    }
    Ok(())
}

fn scanner<'a>(alloc: Global, found: &mut Found<'a>, scanner: &'a Scanner) -> Result<(), Memory>
    ensures { OnOk result (map events.seen found.new.items ≡ map events.seen found.old.items ++ events.scanner_uses scanner.now) }
{
    pattern(alloc, found, &scanner.first)?;
    patterns(alloc, found, scanner.rest.as_slice())
}

// ---- values of definitions

fn used_by<'a>(alloc: Global, found: &mut Found<'a>, value: &'a Union) -> Result<(), Memory>
    ensures { OnOk result (map events.seen found.new.items ≡ map events.seen found.old.items ++ events.value_events value.now) }
{
    match scanner_of(value) {
        Some(one) => scanner(alloc, found, one),
        None => union(found, value),
    }
}

/// What an expression uses, or what the patterns of a scanner do.
pub fn events_of(alloc: Global, value: &Union) -> Result<Vec<Event<'_>>, ReadFault>
    ensures { MatchResult result (λ found. map events.seen found.items ≡ events.value_events value.now) (λ e. e ≡ reason.Memory) }
{
    let mut found = Vec::new(alloc);
    match used_by(alloc, &mut found, value) {
        Ok(()) => Ok(found),
        Err(Memory) => Err(ReadFault::Memory),
    }
}

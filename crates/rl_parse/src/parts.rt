// Parts of operands and embeddings.
ghost use Rattle.std.specs.Prelude.{◌≡◌, length, Ok};
ghost use Rattle.rl_parse.specs.Reading.{Gives};
ghost use Rattle.rl_parse.specs.Rules as rules;

use crate::signs::{
    begins_embedding, begins_negation, begins_number, begins_repetition, begins_transition,
    begins_with, kind_of, negation_sign, place, transition_sign, word,
};
use crate::stop::Stop;
use crate::words::{Ending, character, state_mark};
use rl_grammar::syntax::{
    ActionUse, Bounds, Count, Embedding, Key, Label, Mark, NamedPriority, Negation, Number,
    Operand, PatternAction, Priority, Repetition, TransitionSign, Word,
};
use rl_grammar::{Token, TokenKind};
use rl_types::{List, Place};
use std::alloc::Global;

/// A `-`, where it stands.
fn minus(tokens: &[Token]) -> (Option<Place>, &[Token])
    ensures { rules.minus tokens.now ≡ Ok (result.0, result.1.now) }
{
    match tokens {
        [first, rest @ ..] if first.kind.is(TokenKind::Minus) => (Some(first.place), rest),
        _ => (None, tokens),
    }
}

/// A number, behind a `-` where there is one.
#[tactic(auto, unfolding(crate::specs::Rules::number))]
pub fn number(alloc: Global, tokens: &[Token]) -> Result<(Number, &[Token]), Stop>
    ensures { Gives (λ x. (x.0, x.1.now)) result (rules.number tokens.now) }
{
    let (minus, rest) = minus(tokens);
    let (digits, rest) = word(alloc, rest, TokenKind::Integer)?;
    Ok((Number { minus, digits }, rest))
}

/// An end of a range.
#[tactic(auto, unfolding(crate::specs::Rules::end_of_range))]
fn end_of_range(alloc: Global, tokens: &[Token]) -> Result<(Key, &[Token]), Stop>
    ensures { Gives (λ x. (x.0, x.1.now)) result (rules.end_of_range tokens.now) }
{
    if begins_number(kind_of(tokens)) {
        let (number, rest) = number(alloc, tokens)?;
        Ok((Key::Number(number), rest))
    } else {
        let (word, rest) = character(alloc, tokens)?;
        Ok((Key::Character(word), rest))
    }
}

/// The rest of a range: its `..` and its end.
#[tactic(auto, unfolding(crate::specs::Rules::high))]
fn high(alloc: Global, tokens: &[Token]) -> Result<(Option<(Place, Key)>, &[Token]), Stop>
    ensures { Gives (λ x. (x.0, x.1.now)) result (rules.high tokens.now) }
{
    match tokens {
        [first, rest @ ..] if first.kind.is(TokenKind::DotDot) => {
            let dots = first.place;
            let (key, rest) = end_of_range(alloc, rest)?;
            Ok((Some((dots, key)), rest))
        }
        _ => Ok((None, tokens)),
    }
}

pub fn from_character(word: Word, high: Option<(Place, Key)>) -> Operand
    ensures { result ≡ rules.from_character word high }
{
    match high {
        None => Operand::Literal(word),
        Some((dots, key)) => Operand::Range(Key::Character(word), dots, key),
    }
}

pub fn from_number(number: Number, high: Option<(Place, Key)>) -> Operand
    ensures { result ≡ rules.from_number number high }
{
    match high {
        None => Operand::Number(number),
        Some((dots, key)) => Operand::Range(Key::Number(number), dots, key),
    }
}

/// A literal of one character, and the rest of the range that it begins.
#[tactic(auto, unfolding(crate::specs::Rules::character_range))]
pub fn character_range(
    alloc: Global,
    tokens: &[Token],
) -> Result<((Word, Option<(Place, Key)>), &[Token]), Stop>
    ensures { Gives (λ x. (x.0, x.1.now)) result (rules.character_range tokens.now) }
{
    let (word, rest) = character(alloc, tokens)?;
    let (high, rest) = high(alloc, rest)?;
    Ok(((word, high), rest))
}

/// A number, and the rest of the range that it begins.
#[tactic(auto, unfolding(crate::specs::Rules::number_range))]
pub fn number_range(
    alloc: Global,
    tokens: &[Token],
) -> Result<((Number, Option<(Place, Key)>), &[Token]), Stop>
    ensures { Gives (λ x. (x.0, x.1.now)) result (rules.number_range tokens.now) }
{
    let (number, rest) = number(alloc, tokens)?;
    let (high, rest) = high(alloc, rest)?;
    Ok(((number, high), rest))
}

/// A name in parentheses.
#[tactic(auto, unfolding(crate::specs::Rules::grouped_name))]
fn grouped_name(alloc: Global, tokens: &[Token]) -> Result<((Place, (Word, Place)), &[Token]), Stop>
    ensures { Gives (λ x. (x.0, x.1.now)) result (rules.grouped_name tokens.now) }
{
    let (opening, rest) = place(tokens, TokenKind::OpenParenthesis)?;
    let (name, rest) = word(alloc, rest, TokenKind::Name)?;
    let (closing, rest) = place(rest, TokenKind::CloseParenthesis)?;
    Ok(((opening, (name, closing)), rest))
}

/// An action where it is used.
#[tactic(auto, unfolding(crate::specs::Rules::action_use, rl_grammar::specs::Lexeme::same_kind))]
pub fn action_use(alloc: Global, tokens: &[Token]) -> Result<(ActionUse, &[Token]), Stop>
    ensures { Gives (λ x. (x.0, x.1.now)) result (rules.action_use tokens.now) }
{
    match kind_of(tokens) {
        TokenKind::Name => {
            let (name, rest) = word(alloc, tokens, TokenKind::Name)?;
            Ok((ActionUse::Name(name), rest))
        }
        TokenKind::Code => {
            let (code, rest) = word(alloc, tokens, TokenKind::Code)?;
            Ok((ActionUse::Code(code), rest))
        }
        _ => {
            let ((opening, (name, closing)), rest) = grouped_name(alloc, tokens)?;
            Ok((ActionUse::Group(opening, name, closing), rest))
        }
    }
}

/// What stands behind `(` and a name.
#[tactic(auto, unfolding(crate::specs::Rules::ending))]
fn ending(alloc: Global, tokens: &[Token]) -> Result<(Ending, &[Token]), Stop>
    ensures { Gives (λ x. (x.0, x.1.now)) result (rules.ending tokens.now) }
{
    if begins_with(tokens, TokenKind::CloseParenthesis) {
        let (closing, rest) = place(tokens, TokenKind::CloseParenthesis)?;
        Ok((Ending::Closed(closing), rest))
    } else {
        let ((comma, (value, closing)), rest) = named_value(alloc, tokens)?;
        Ok((Ending::Valued(comma, value, closing), rest))
    }
}

/// `,`, a number and `)`.
#[tactic(auto, unfolding(crate::specs::Rules::named_value))]
fn named_value(
    alloc: Global,
    tokens: &[Token],
) -> Result<((Place, (Number, Place)), &[Token]), Stop>
    ensures { Gives (λ x. (x.0, x.1.now)) result (rules.named_value tokens.now) }
{
    let (comma, rest) = place(tokens, TokenKind::Comma)?;
    let (value, rest) = number(alloc, rest)?;
    let (closing, rest) = place(rest, TokenKind::CloseParenthesis)?;
    Ok(((comma, (value, closing)), rest))
}

fn ended(opening: Place, name: Word, ending: Ending) -> Label
    ensures { result ≡ rules.ended opening name ending }
{
    match ending {
        Ending::Closed(closing) => Label::Action(ActionUse::Group(opening, name, closing)),
        Ending::Valued(comma, value, closing) => {
            Label::Priority(Priority::Named(NamedPriority {
                opening,
                name,
                comma,
                value,
                closing,
            }))
        }
    }
}

/// An action or a priority in parentheses.
#[tactic(auto, unfolding(crate::specs::Rules::grouped_label))]
fn grouped_label(
    alloc: Global,
    tokens: &[Token],
) -> Result<((Place, (Word, Ending)), &[Token]), Stop>
    ensures { Gives (λ x. (x.0, x.1.now)) result (rules.grouped_label tokens.now) }
{
    let (opening, rest) = place(tokens, TokenKind::OpenParenthesis)?;
    let (name, rest) = word(alloc, rest, TokenKind::Name)?;
    let (ending, rest) = ending(alloc, rest)?;
    Ok(((opening, (name, ending)), rest))
}

/// What is embedded in transitions.
#[tactic(auto, unfolding(crate::specs::Rules::label_use, rl_grammar::specs::Lexeme::same_kind))]
fn label_use(alloc: Global, tokens: &[Token]) -> Result<(Label, &[Token]), Stop>
    ensures { Gives (λ x. (x.0, x.1.now)) result (rules.label_use tokens.now) }
{
    match kind_of(tokens) {
        TokenKind::Name => {
            let (name, rest) = word(alloc, tokens, TokenKind::Name)?;
            Ok((Label::Action(ActionUse::Name(name)), rest))
        }
        TokenKind::Code => {
            let (code, rest) = word(alloc, tokens, TokenKind::Code)?;
            Ok((Label::Action(ActionUse::Code(code)), rest))
        }
        TokenKind::Minus | TokenKind::Integer => {
            let (number, rest) = number(alloc, tokens)?;
            Ok((Label::Priority(Priority::Plain(number)), rest))
        }
        _ => {
            let ((opening, (name, ending)), rest) = grouped_label(alloc, tokens)?;
            Ok((ended(opening, name, ending), rest))
        }
    }
}

/// An embedding in transitions.
#[tactic(auto, unfolding(crate::specs::Rules::transition))]
fn transition(alloc: Global, tokens: &[Token]) -> Result<((TransitionSign, Label), &[Token]), Stop>
    ensures { Gives (λ x. (x.0, x.1.now)) result (rules.transition tokens.now) }
{
    let (sign, rest) = transition_sign(tokens)?;
    let (label, rest) = label_use(alloc, rest)?;
    Ok(((sign, label), rest))
}

/// An embedding in states.
#[tactic(auto, unfolding(crate::specs::Rules::state))]
fn state(alloc: Global, tokens: &[Token]) -> Result<((Mark, ActionUse), &[Token]), Stop>
    ensures { Gives (λ x. (x.0, x.1.now)) result (rules.state tokens.now) }
{
    let (mark, rest) = state_mark(tokens)?;
    let (action, rest) = action_use(alloc, rest)?;
    Ok(((mark, action), rest))
}

/// A condition.
#[tactic(auto, unfolding(crate::specs::Rules::condition))]
fn condition(alloc: Global, tokens: &[Token]) -> Result<((Place, ActionUse), &[Token]), Stop>
    ensures { Gives (λ x. (x.0, x.1.now)) result (rules.condition tokens.now) }
{
    let (start, rest) = place(tokens, TokenKind::When)?;
    let (action, rest) = action_use(alloc, rest)?;
    Ok(((start, action), rest))
}

/// What is embedded in an operand.
#[tactic(auto, unfolding(crate::specs::Rules::one_embedding, rl_grammar::specs::Lexeme::same_kind))]
fn embedding(alloc: Global, tokens: &[Token]) -> Result<(Embedding, &[Token]), Stop>
    ensures { Gives (λ x. (x.0, x.1.now)) result (rules.one_embedding tokens.now) }
{
    if begins_transition(kind_of(tokens)) {
        let ((sign, label), rest) = transition(alloc, tokens)?;
        Ok((Embedding::Transition(sign, label), rest))
    } else if begins_with(tokens, TokenKind::Mark) {
        let ((mark, action), rest) = state(alloc, tokens)?;
        Ok((Embedding::State(mark, action), rest))
    } else {
        let ((start, action), rest) = condition(alloc, tokens)?;
        Ok((Embedding::When(start, action), rest))
    }
}

/// The number behind the comma of a count, where it stands.
#[tactic(auto, unfolding(crate::specs::Rules::most))]
fn most(alloc: Global, tokens: &[Token]) -> Result<(Option<Word>, &[Token]), Stop>
    ensures { Gives (λ x. (x.0, x.1.now)) result (rules.most tokens.now) }
{
    if begins_with(tokens, TokenKind::Integer) {
        let (number, rest) = word(alloc, tokens, TokenKind::Integer)?;
        Ok((Some(number), rest))
    } else {
        Ok((None, tokens))
    }
}

/// The comma of a count, where it stands, and the number behind it.
#[tactic(auto, unfolding(crate::specs::Rules::upper))]
fn upper(alloc: Global, tokens: &[Token]) -> Result<(Option<(Place, Option<Word>)>, &[Token]), Stop>
    ensures { Gives (λ x. (x.0, x.1.now)) result (rules.upper tokens.now) }
{
    match tokens {
        [first, rest @ ..] if first.kind.is(TokenKind::Comma) => {
            let comma = first.place;
            let (most, rest) = most(alloc, rest)?;
            Ok((Some((comma, most)), rest))
        }
        _ => Ok((None, tokens)),
    }
}

/// `,` and a number.
#[tactic(auto, unfolding(crate::specs::Rules::at_most))]
fn at_most(alloc: Global, tokens: &[Token]) -> Result<((Place, Word), &[Token]), Stop>
    ensures { Gives (λ x. (x.0, x.1.now)) result (rules.at_most tokens.now) }
{
    let (comma, rest) = place(tokens, TokenKind::Comma)?;
    let (most, rest) = word(alloc, rest, TokenKind::Integer)?;
    Ok(((comma, most), rest))
}

/// A number, and what may stand behind it.
#[tactic(auto, unfolding(crate::specs::Rules::at_least))]
fn at_least(
    alloc: Global,
    tokens: &[Token],
) -> Result<((Word, Option<(Place, Option<Word>)>), &[Token]), Stop>
    ensures { Gives (λ x. (x.0, x.1.now)) result (rules.at_least tokens.now) }
{
    let (least, rest) = word(alloc, tokens, TokenKind::Integer)?;
    let (upper, rest) = upper(alloc, rest)?;
    Ok(((least, upper), rest))
}

fn from_least(least: Word, upper: Option<(Place, Option<Word>)>) -> Bounds
    ensures { result ≡ rules.from_least least upper }
{
    match upper {
        None => Bounds::Exactly(least),
        Some((comma, None)) => Bounds::AtLeast(least, comma),
        Some((comma, Some(most))) => Bounds::Between(least, comma, most),
    }
}

#[tactic(auto, unfolding(crate::specs::Rules::count_bounds))]
fn bounds(alloc: Global, tokens: &[Token]) -> Result<(Bounds, &[Token]), Stop>
    ensures { Gives (λ x. (x.0, x.1.now)) result (rules.count_bounds tokens.now) }
{
    if begins_with(tokens, TokenKind::Comma) {
        let ((comma, most), rest) = at_most(alloc, tokens)?;
        Ok((Bounds::AtMost(comma, most), rest))
    } else {
        let ((least, upper), rest) = at_least(alloc, tokens)?;
        Ok((from_least(least, upper), rest))
    }
}

/// How often, in braces.
#[tactic(auto, unfolding(crate::specs::Rules::count))]
fn count(alloc: Global, tokens: &[Token]) -> Result<(Count, &[Token]), Stop>
    ensures { Gives (λ x. (x.0, x.1.now)) result (rules.count tokens.now) }
{
    let (opening, rest) = place(tokens, TokenKind::OpenBrace)?;
    let (bounds, rest) = bounds(alloc, rest)?;
    let (closing, rest) = place(rest, TokenKind::CloseBrace)?;
    Ok((
        Count {
            opening,
            bounds,
            closing,
        },
        rest,
    ))
}

#[tactic(auto, unfolding(crate::specs::Rules::one_repetition, rl_grammar::specs::Lexeme::same_kind))]
fn repetition(alloc: Global, tokens: &[Token]) -> Result<(Repetition, &[Token]), Stop>
    ensures { Gives (λ x. (x.0, x.1.now)) result (rules.one_repetition tokens.now) }
{
    match kind_of(tokens) {
        TokenKind::Star => {
            let (at, rest) = place(tokens, TokenKind::Star)?;
            Ok((Repetition::Star(at), rest))
        }
        TokenKind::DoubleStar => {
            let (at, rest) = place(tokens, TokenKind::DoubleStar)?;
            Ok((Repetition::LongestStar(at), rest))
        }
        TokenKind::Question => {
            let (at, rest) = place(tokens, TokenKind::Question)?;
            Ok((Repetition::Optional(at), rest))
        }
        TokenKind::Plus => {
            let (at, rest) = place(tokens, TokenKind::Plus)?;
            Ok((Repetition::Plus(at), rest))
        }
        _ => {
            let (count, rest) = count(alloc, tokens)?;
            Ok((Repetition::Count(count), rest))
        }
    }
}

/// `=>` and the action of a pattern.
#[tactic(auto, unfolding(crate::specs::Rules::some_pattern_action))]
fn some_pattern_action(alloc: Global, tokens: &[Token]) -> Result<(PatternAction, &[Token]), Stop>
    ensures { Gives (λ x. (x.0, x.1.now)) result (rules.some_pattern_action tokens.now) }
{
    let (arrow, rest) = place(tokens, TokenKind::Arrow)?;
    let (action, rest) = action_use(alloc, rest)?;
    Ok((PatternAction { arrow, action }, rest))
}

/// The action of a pattern, where it has one.
#[tactic(auto, unfolding(crate::specs::Rules::pattern_action))]
pub fn pattern_action(
    alloc: Global,
    tokens: &[Token],
) -> Result<(Option<PatternAction>, &[Token]), Stop>
    ensures { Gives (λ x. (x.0, x.1.now)) result (rules.pattern_action tokens.now) }
{
    if begins_with(tokens, TokenKind::Arrow) {
        let (action, rest) = some_pattern_action(alloc, tokens)?;
        Ok((Some(action), rest))
    } else {
        Ok((None, tokens))
    }
}

pub fn repetitions(alloc: Global, tokens: &[Token]) -> Result<(List<Repetition>, &[Token]), Stop>
    ensures { Gives (λ x. (x.0, x.1.now)) result (rules.repetitions tokens.now) }
{
    let mut found = List::new(alloc);
    let mut rest = tokens;
    for _turn in 0..tokens.len() {
        if !begins_repetition(kind_of(rest)) {
            break;
        }
        let (one, after) = repetition(alloc, rest)?;
        found.push(one)?;
        rest = after;
    }
    Ok((found, rest))
}

pub fn embeddings(alloc: Global, tokens: &[Token]) -> Result<(List<Embedding>, &[Token]), Stop>
    ensures { Gives (λ x. (x.0, x.1.now)) result (rules.embeddings tokens.now) }
{
    let mut found = List::new(alloc);
    let mut rest = tokens;
    for _turn in 0..tokens.len() {
        if !begins_embedding(kind_of(rest)) {
            break;
        }
        let (one, after) = embedding(alloc, rest)?;
        found.push(one)?;
        rest = after;
    }
    Ok((found, rest))
}

pub fn negations(alloc: Global, tokens: &[Token]) -> Result<(List<Negation>, &[Token]), Stop>
    ensures { Gives (λ x. (x.0, x.1.now)) result (rules.negations tokens.now) }
{
    let mut found = List::new(alloc);
    let mut rest = tokens;
    for _turn in 0..tokens.len() {
        if !begins_negation(kind_of(rest)) {
            break;
        }
        let (one, after) = negation_sign(rest)?;
        found.push(one)?;
        rest = after;
    }
    Ok((found, rest))
}

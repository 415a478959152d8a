// Tokens told by their text.
ghost use Rattle.std.specs.Prelude.{◌≡◌, ◌≤◌, length, false, MatchResult};
ghost use Rattle.std.specs.Str.{bytes_eq};
ghost use Rattle.rl_readers.specs.Readers.{sees};
ghost use Rattle.rl_grammar.specs.Grammar.{is_variable};
ghost use Rattle.rl_grammar.specs.Literals.{characters, is_character};
ghost use Rattle.rl_grammar.specs.Marks as marks;
ghost use Rattle.rl_parse.specs.Reading.{Gives};
ghost use Rattle.rl_parse.specs.Rules as rules;
ghost use Rattle.rl_parse.specs.Rules.{count_of, slash_after};
ghost use Rattle.rl_parse.specs.declared.stop.Stop.TheVariants.{Memory};

use crate::stop::Stop;
use rl_grammar::syntax::{
    AlphabetWord, Mark, Number, StateClass, StateKind, Word, WriteKind, WriteOption,
};
use rl_grammar::{Token, TokenKind};
use rl_types::{List, Place};
use std::alloc::Global;

/// What stands behind `(` and a name: `)`, or `,`, a number and `)`.
#[derive(Drop)]
pub enum Ending {
    Closed(Place),
    Valued(Place, Number, Place),
}

fn same_text(text: &[u8], other: &[u8]) -> bool
    ensures { result ≡ bytes_eq text.now other.now }
{
    text == other
}

/// Whether the token is this word.
#[tactic(auto, using(crate::proofs::Texts::name_carried))]
fn is_word(token: &Token, text: &[u8]) -> bool
    ensures { result ≡ rules.is_word text.now token.now }
{
    token.kind.is(TokenKind::Name) && same_text(token.text.as_slice(), text)
}

/// The place of the word `unsigned`, where it stands.
#[tactic(auto, unfolding(crate::specs::Rules::unsigned))]
pub fn unsigned(tokens: &[Token]) -> Result<(Option<Place>, &[Token]), Stop>
    ensures { Gives (λ x. (x.0, x.1.now)) result (rules.unsigned tokens.now) }
{
    match tokens {
        [first, rest @ ..] if is_word(first, b"unsigned") => Ok((Some(first.place), rest)),
        _ => Ok((None, tokens)),
    }
}

fn alphabet_word_of(token: &Token) -> Option<AlphabetWord>
    ensures { result ≡ rules.known_alphabet_word token.now }
{
    if is_word(token, b"char") {
        Some(AlphabetWord::Char(token.place))
    } else if is_word(token, b"short") {
        Some(AlphabetWord::Short(token.place))
    } else if is_word(token, b"int") {
        Some(AlphabetWord::Int(token.place))
    } else {
        None
    }
}

pub fn alphabet_word(tokens: &[Token]) -> Result<(AlphabetWord, &[Token]), Stop>
    ensures { Gives (λ x. (x.0, x.1.now)) result (rules.alphabet_word tokens.now) }
{
    if let [first, rest @ ..] = tokens {
        if let Some(word) = alphabet_word_of(first) {
            return Ok((word, rest));
        }
    }
    Err(Stop::At(tokens.len()))
}

fn write_kind_of(token: &Token) -> Option<WriteKind>
    ensures { result ≡ rules.known_write_kind token.now }
{
    if is_word(token, b"data") {
        Some(WriteKind::Data(token.place))
    } else if is_word(token, b"init") {
        Some(WriteKind::Init(token.place))
    } else if is_word(token, b"exec") {
        Some(WriteKind::Exec(token.place))
    } else {
        None
    }
}

pub fn write_kind(tokens: &[Token]) -> Result<(WriteKind, &[Token]), Stop>
    ensures { Gives (λ x. (x.0, x.1.now)) result (rules.write_kind tokens.now) }
{
    if let [first, rest @ ..] = tokens {
        if let Some(kind) = write_kind_of(first) {
            return Ok((kind, rest));
        }
    }
    Err(Stop::At(tokens.len()))
}

fn write_option_of(token: &Token) -> Option<WriteOption>
    ensures { result ≡ rules.known_write_option token.now }
{
    if is_word(token, b"noerror") {
        Some(WriteOption::NoError(token.place))
    } else if is_word(token, b"nofinal") {
        Some(WriteOption::NoFinal(token.place))
    } else {
        None
    }
}

pub fn write_option(tokens: &[Token]) -> Result<(WriteOption, &[Token]), Stop>
    ensures { Gives (λ x. (x.0, x.1.now)) result (rules.write_option tokens.now) }
{
    if let [first, rest @ ..] = tokens {
        if let Some(option) = write_option_of(first) {
            return Ok((option, rest));
        }
    }
    Err(Stop::At(tokens.len()))
}

fn state_kind(text: &[u8]) -> Option<StateKind>
    ensures { result ≡ marks.kind_of text.now }
{
    if same_text(text, b"~") || same_text(text, b"to") {
        Some(StateKind::To)
    } else if same_text(text, b"*") || same_text(text, b"from") {
        Some(StateKind::From)
    } else if same_text(text, b"/") || same_text(text, b"eof") {
        Some(StateKind::Eof)
    } else if same_text(text, b"!") || same_text(text, b"err") {
        Some(StateKind::Error)
    } else {
        None
    }
}

fn with_class(class: StateClass, kind: Option<StateKind>) -> Option<(StateClass, StateKind)>
    ensures { result ≡ marks.with_class class kind }
{
    match kind {
        None => None,
        Some(kind) => Some((class, kind)),
    }
}

fn mark_of(text: &[u8]) -> Option<(StateClass, StateKind)>
    ensures { result ≡ marks.mark_of text.now }
{
    match text {
        [b'<', b'>', rest @ ..] => with_class(StateClass::Middle, state_kind(rest)),
        [b'<', rest @ ..] => with_class(StateClass::NotStart, state_kind(rest)),
        [b'>', rest @ ..] => with_class(StateClass::Start, state_kind(rest)),
        [b'$', rest @ ..] => with_class(StateClass::All, state_kind(rest)),
        [b'%', rest @ ..] => with_class(StateClass::Final, state_kind(rest)),
        [b'@', rest @ ..] => with_class(StateClass::NotFinal, state_kind(rest)),
        _ => None,
    }
}

fn mark_at(token: &Token) -> Option<Mark>
    ensures { result ≡ rules.known_mark token.now }
{
    if !token.kind.is(TokenKind::Mark) {
        return None;
    }
    match mark_of(token.text.as_slice()) {
        None => None,
        Some((class, kind)) => {
            let place = token.place;
            Some(Mark { class, kind, place })
        }
    }
}

/// A class of states with a kind of embedding.
pub fn state_mark(tokens: &[Token]) -> Result<(Mark, &[Token]), Stop>
    ensures { Gives (λ x. (x.0, x.1.now)) result (rules.state_mark tokens.now) }
{
    if let [first, rest @ ..] = tokens {
        if let Some(mark) = mark_at(first) {
            return Ok((mark, rest));
        }
    }
    Err(Stop::At(tokens.len()))
}

/// 1 where the byte is a character of its literal, or ends one that a backslash began, else 0.
fn count_of(slash: bool, byte: u8) -> usize
    ensures value { result ≡ count_of slash byte }
    ensures bound { result ≤ 1 }
{
    let counts = if slash { byte != b'\n' } else { byte != b'\\' };
    usize::from(counts)
}

fn slash_after(slash: bool, byte: u8) -> bool
    ensures { result ≡ slash_after slash byte }
{
    !slash && byte == b'\\'
}

fn count_characters(body: &[u8]) -> usize
    ensures { result ≡ length (characters false body.now) }
{
    let mut slash = false;
    let mut count: usize = 0;
    for at in 0..body.len() {
        let byte = body[at];
        count += count_of(slash, byte);
        slash = slash_after(slash, byte);
    }
    count
}

/// Whether the text is a literal of one character without the suffix `i`.
fn is_character(text: &[u8]) -> bool
    ensures { result ≡ is_character text.now }
{
    let len = text.len();
    if len < 2 {
        return false;
    }
    same_text(&text[..1], &text[len - 1..]) && count_characters(&text[1..len - 1]) == 1
}

#[tactic(auto, using(crate::proofs::Texts::literal_carried))]
fn is_key(token: &Token) -> bool
    ensures { result ≡ rules.is_key token.now }
{
    token.kind.is(TokenKind::Literal) && is_character(token.text.as_slice())
}

#[tactic(auto, using(crate::proofs::Texts::literal_carried))]
fn is_plain(token: &Token) -> bool
    ensures { result ≡ rules.is_plain token.now }
{
    token.kind.is(TokenKind::Literal) && !is_character(token.text.as_slice())
}

/// Whether the tokens begin with a literal that may be the end of a range.
pub fn begins_key(tokens: &[Token]) -> bool
    ensures { result ≡ sees rules.is_key tokens.now }
{
    match tokens {
        [] => false,
        [first, ..] => is_key(first),
    }
}

/// Whether the tokens begin with another literal.
pub fn begins_plain(tokens: &[Token]) -> bool
    ensures { result ≡ sees rules.is_plain tokens.now }
{
    match tokens {
        [] => false,
        [first, ..] => is_plain(first),
    }
}

fn word_at(alloc: Global, token: &Token) -> Result<Word, Stop>
    ensures { MatchResult result (λ w. w ≡ rules.word_of token.now) (λ e. e ≡ Memory) }
{
    let text = List::from_slice(alloc, token.text.as_slice())?;
    let place = token.place;
    Ok(Word { text, place })
}

/// A literal of one character.
pub fn character(alloc: Global, tokens: &[Token]) -> Result<(Word, &[Token]), Stop>
    ensures { Gives (λ x. (x.0, x.1.now)) result (rules.character tokens.now) }
{
    match tokens {
        [first, rest @ ..] if is_key(first) => Ok((word_at(alloc, first)?, rest)),
        _ => Err(Stop::At(tokens.len())),
    }
}

/// A literal that is no end of a range.
pub fn plain_literal(alloc: Global, tokens: &[Token]) -> Result<(Word, &[Token]), Stop>
    ensures { Gives (λ x. (x.0, x.1.now)) result (rules.plain_literal tokens.now) }
{
    if begins_plain(tokens) {
        if let [first, rest @ ..] = tokens {
            return Ok((word_at(alloc, first)?, rest));
        }
    }
    Err(Stop::At(tokens.len()))
}

fn is_variable(text: &[u8]) -> bool
    ensures { result ≡ is_variable text.now }
{
    same_text(text, b"p")
        || same_text(text, b"pe")
        || same_text(text, b"eof")
        || same_text(text, b"cs")
        || same_text(text, b"top")
        || same_text(text, b"stack")
        || same_text(text, b"act")
        || same_text(text, b"ts")
        || same_text(text, b"te")
}

#[tactic(auto, using(crate::proofs::Texts::name_carried))]
fn is_variable_name(token: &Token) -> bool
    ensures { result ≡ rules.is_variable_name token.now }
{
    token.kind.is(TokenKind::Name) && is_variable(token.text.as_slice())
}

/// The name of a variable.
pub fn variable_name(alloc: Global, tokens: &[Token]) -> Result<(Word, &[Token]), Stop>
    ensures { Gives (λ x. (x.0, x.1.now)) result (rules.variable_name tokens.now) }
{
    match tokens {
        [first, rest @ ..] if is_variable_name(first) => Ok((word_at(alloc, first)?, rest)),
        _ => Err(Stop::At(tokens.len())),
    }
}

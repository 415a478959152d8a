// The signs of the grammar.
ghost use Rattle.std.specs.Prelude.{◌≡◌};
ghost use Rattle.rl_lexical.specs.Signs.{named, statement_signs, binary_signs, unary_signs, scanner_signs, sign_of, is_class, is_behind_greater, is_mark, is_sign_kind, is_word_kind, is_mark_before, sign_before};

use crate::bytes::begins_in_word;
use rl_grammar::TokenKind;

/// The sign of statements and groups that a whole text is.
fn statement_sign(text: &[u8]) -> Option<TokenKind>
    ensures { result ≡ named statement_signs text.now }
{
    if text == b";".as_slice() {
        Some(TokenKind::Semicolon)
    } else if text == b"=".as_slice() {
        Some(TokenKind::Equals)
    } else if text == b":=".as_slice() {
        Some(TokenKind::ColonEquals)
    } else if text == b"(".as_slice() {
        Some(TokenKind::OpenParenthesis)
    } else if text == b")".as_slice() {
        Some(TokenKind::CloseParenthesis)
    } else if text == b"|*".as_slice() {
        Some(TokenKind::OpenScanner)
    } else if text == b"=>".as_slice() {
        Some(TokenKind::Arrow)
    } else if text == b"{".as_slice() {
        Some(TokenKind::OpenBrace)
    } else if text == b"}".as_slice() {
        Some(TokenKind::CloseBrace)
    } else if text == b",".as_slice() {
        Some(TokenKind::Comma)
    } else {
        None
    }
}

/// The sign between expressions that a whole text is.
fn binary_sign(text: &[u8]) -> Option<TokenKind>
    ensures { result ≡ named binary_signs text.now }
{
    if text == b"|".as_slice() {
        Some(TokenKind::Bar)
    } else if text == b"&".as_slice() {
        Some(TokenKind::Ampersand)
    } else if text == b"-".as_slice() {
        Some(TokenKind::Minus)
    } else if text == b"--".as_slice() {
        Some(TokenKind::DoubleMinus)
    } else if text == b".".as_slice() {
        Some(TokenKind::Dot)
    } else if text == b"..".as_slice() {
        Some(TokenKind::DotDot)
    } else if text == b"<:".as_slice() {
        Some(TokenKind::LeftGuard)
    } else if text == b":>".as_slice() {
        Some(TokenKind::EntryGuard)
    } else if text == b":>>".as_slice() {
        Some(TokenKind::FinishGuard)
    } else {
        None
    }
}

/// The sign before or behind an expression that a whole text is.
fn unary_sign(text: &[u8]) -> Option<TokenKind>
    ensures { result ≡ named unary_signs text.now }
{
    if text == b"*".as_slice() {
        Some(TokenKind::Star)
    } else if text == b"**".as_slice() {
        Some(TokenKind::DoubleStar)
    } else if text == b"?".as_slice() {
        Some(TokenKind::Question)
    } else if text == b"+".as_slice() {
        Some(TokenKind::Plus)
    } else if text == b"!".as_slice() {
        Some(TokenKind::Exclamation)
    } else if text == b"^".as_slice() {
        Some(TokenKind::Caret)
    } else if text == b">".as_slice() {
        Some(TokenKind::Greater)
    } else if text == b"@".as_slice() {
        Some(TokenKind::At)
    } else if text == b"$".as_slice() {
        Some(TokenKind::Dollar)
    } else if text == b"%".as_slice() {
        Some(TokenKind::Percent)
    } else {
        None
    }
}

/// The end of a scanner, in a scanner.
fn scanner_sign(in_scanner: bool, text: &[u8]) -> Option<TokenKind>
    ensures { result ≡ named (scanner_signs in_scanner) text.now }
{
    if in_scanner && text == b"*|".as_slice() {
        Some(TokenKind::CloseScanner)
    } else {
        None
    }
}

/// The sign that a whole text is.
fn sign_of(in_scanner: bool, text: &[u8]) -> Option<TokenKind>
    ensures { result ≡ sign_of in_scanner text.now }
{
    if let Some(kind) = scanner_sign(in_scanner, text) {
        return Some(kind);
    }
    if let Some(kind) = statement_sign(text) {
        return Some(kind);
    }
    if let Some(kind) = binary_sign(text) {
        return Some(kind);
    }
    unary_sign(text)
}

fn is_class(b: u8) -> bool
    ensures { result ≡ is_class b }
{
    matches!(b, b'>' | b'<' | b'$' | b'%' | b'@')
}

fn is_sign_kind(text: &[u8]) -> bool
    ensures { result ≡ is_sign_kind text.now }
{
    text == b"~".as_slice()
        || text == b"*".as_slice()
        || text == b"/".as_slice()
        || text == b"!".as_slice()
}

fn is_word_kind(text: &[u8]) -> bool
    ensures { result ≡ is_word_kind text.now }
{
    text == b"to".as_slice()
        || text == b"from".as_slice()
        || text == b"eof".as_slice()
        || text == b"err".as_slice()
}

/// Whether a text is `>` and a sign of a kind.
fn is_sign_behind_greater(text: &[u8]) -> bool
    ensures { result ≡ is_behind_greater is_sign_kind text.now }
{
    match text {
        [] => false,
        [first, kind @ ..] => *first == b'>' && is_sign_kind(kind),
    }
}

/// Whether a text is `>` and a word of a kind.
fn is_word_behind_greater(text: &[u8]) -> bool
    ensures { result ≡ is_behind_greater is_word_kind text.now }
{
    match text {
        [] => false,
        [first, kind @ ..] => *first == b'>' && is_word_kind(kind),
    }
}

/// Whether a text is a class of states and the sign of a kind.
fn is_sign_mark(text: &[u8]) -> bool
    ensures { result ≡ is_mark is_sign_kind text.now }
{
    match text {
        [] => false,
        [class, kind @ ..] => {
            (is_class(*class) && is_sign_kind(kind))
                || (*class == b'<' && is_sign_behind_greater(kind))
        }
    }
}

/// Whether a text is a class of states and the word of a kind.
fn is_word_mark(text: &[u8]) -> bool
    ensures { result ≡ is_mark is_word_kind text.now }
{
    match text {
        [] => false,
        [class, kind @ ..] => {
            (is_class(*class) && is_word_kind(kind))
                || (*class == b'<' && is_word_behind_greater(kind))
        }
    }
}

/// Whether a text is a mark, where this rest follows.
fn is_mark_before(rest: &[u8], text: &[u8]) -> bool
    ensures { result ≡ is_mark_before rest.now text.now }
{
    is_sign_mark(text) || (is_word_mark(text) && !begins_in_word(rest))
}

/// The sign that a text is, where this rest follows.
pub fn sign_before(in_scanner: bool, rest: &[u8], text: &[u8]) -> Option<TokenKind>
    ensures { result ≡ sign_before in_scanner rest.now text.now }
{
    if is_mark_before(rest, text) {
        Some(TokenKind::Mark)
    } else {
        sign_of(in_scanner, text)
    }
}

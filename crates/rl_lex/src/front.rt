// The longest token that a text begins with.
ghost use Rattle.std.specs.Prelude.{◌≡◌, ◌+◌, ◌<◌, ◌≤◌, ◌^◌, true, false, ◌∷◌, length, IfSome, MatchOption};
ghost use Rattle.rl_arrays.specs.Names.{is_letter, is_digit};
ghost use Rattle.rl_lexical.specs.declared.context.Context.{Context};
ghost use Rattle.rl_lexical.specs.Bytes.{begins};
ghost use Rattle.rl_lexical.specs.Fronts.{opened, text_in_front, token_in_front};
ghost use Rattle.rl_lexical.specs.Signs.{sign_before};
ghost use Rattle.rl_lex.specs.Pieces.{depth_of};
ghost use Rattle.rl_lex.specs.Integers.{hexadecimal_len};
ghost use Rattle.rl_lex.specs.Longest.{IsLongest, Finds, FindsEnd, FindsPiece, FindsSign, takes_suffix};

use crate::bytes;
use crate::context::{is_code, is_text};
use crate::mode::{is_read, mode_behind};
use crate::sign::sign_before;
use crate::word::word_kind;
use rl_grammar::TokenKind;
use rl_lexical::{Context, Mode};

/// The word of a text that begins with a letter.
fn word(text: &[u8]) -> (TokenKind, usize)
    requires { begins is_letter text.now ≡ true }
    ensures { (context : Context) → IsLongest context text.now result.0 result.1 }
{
    let len = bytes::word_len(text);
    (word_kind(&text[..len]), len)
}

/// How many bytes of `0x` and hexadecimal digits the text begins with.
fn hexadecimal_len(text: &[u8]) -> usize
    ensures { result ≡ hexadecimal_len text.now }
{
    match text {
        [a, b, digits @ ..] => {
            if *a == b'0' && *b == b'x' {
                let n = bytes::hex_digits_len(digits);
                if n == 0 { 0 } else { n + 2 }
            } else {
                0
            }
        }
        _ => 0,
    }
}

/// The integer of a text that begins with a digit.
fn integer(text: &[u8]) -> (TokenKind, usize)
    requires letter { begins is_letter text.now ≡ false }
    requires digit { begins is_digit text.now ≡ true }
    ensures { (context : Context) → IsLongest context text.now result.0 result.1 }
{
    let len = hexadecimal_len(text);
    if len > 0 {
        (TokenKind::Integer, len)
    } else {
        (TokenKind::Integer, bytes::digits_len(text))
    }
}

/// The kind of the piece that a byte begins, and how it is read from there on.
pub fn opened(context: Context, first: u8) -> Option<(TokenKind, Mode)>
    ensures value { result ≡ opened context first }
    ensures depth { IfSome result (λ x. depth_of x.1 ≡ 0) }
{
    match first {
        b'\'' | b'"' => Some((TokenKind::Literal, Mode::Literal(first))),
        b'[' => Some((TokenKind::Set, Mode::Set)),
        b'/' => Some((TokenKind::RegularExpression, Mode::Regular)),
        b'{' if is_code(context.expected) => Some((TokenKind::Code, Mode::Code(0))),
        _ => None,
    }
}

/// How many bytes close a piece, and how it is read then.
fn closed(start: Mode, text: &[u8]) -> Option<(Mode, usize)>
    requires depth { depth_of start ≡ 0 }
    requires room { length text.now < 2 ^ 63 }
    ensures { FindsEnd start text.now result }
{
    let mut mode = start;
    let mut n = 0;
    while !is_read(mode) {
        if n == text.len() {
            return None;
        }
        mode = mode_behind(mode, text[n]);
        n += 1;
    }
    Some((mode, n))
}

/// Whether an `i` follows that belongs to the piece.
fn takes_suffix(mode: Mode, rest: &[u8]) -> bool
    ensures { result ≡ takes_suffix mode rest.now }
{
    match mode {
        Mode::Suffixable => match rest {
            [] => false,
            [first, ..] => *first == b'i',
        },
        _ => false,
    }
}

/// The piece of this kind behind its first byte, if it has an end.
fn piece(kind: TokenKind, mode: Mode, rest: &[u8]) -> Option<(TokenKind, usize)>
    requires room { length rest.now + 1 < 2 ^ 63 }
    requires depth { depth_of mode ≡ 0 }
    ensures { FindsPiece kind mode rest.now result }
{
    let (end, n) = closed(mode, rest)?;
    if takes_suffix(end, &rest[n..]) {
        Some((kind, n + 2))
    } else {
        Some((kind, n + 1))
    }
}

/// The longest sign that a text begins with. No sign has more than six bytes.
fn sign(in_scanner: bool, text: &[u8]) -> Option<(TokenKind, usize)>
    ensures { FindsSign in_scanner text.now result }
{
    let mut n = text.len().min(6);
    while n > 0 {
        let (front, rest) = text.split_at(n);
        match sign_before(in_scanner, rest, front) {
            Some(kind) => return Some((kind, n)),
            None => n -= 1,
        }
    }
    None
}

/// The longest token of a text by its first byte.
fn token_behind(context: Context, text: &[u8], first: u8, rest: &[u8]) -> Option<(TokenKind, usize)>
    requires parts { text.now ≡ first ∷ rest.now }
    requires room { length rest.now + 1 < 2 ^ 63 }
    ensures { Finds context text.now result }
{
    if bytes::is_letter(first) {
        return Some(word(text));
    }
    if bytes::is_digit(first) {
        return Some(integer(text));
    }
    match opened(context, first) {
        Some((kind, mode)) => piece(kind, mode, rest),
        None => sign(context.in_scanner, text),
    }
}

/// The longest token that the text begins with.
fn longest(context: Context, text: &[u8]) -> Option<(TokenKind, usize)>
    requires room { length text.now < 2 ^ 63 }
    ensures { Finds context text.now result }
{
    match text {
        [] => None,
        [first, rest @ ..] => token_behind(context, text, *first, rest),
    }
}

/// The text of `access` or `variable`, which ends with the first `;`.
fn text(rest: &[u8]) -> Option<(TokenKind, usize)>
    ensures { result ≡ text_in_front rest.now }
{
    let len = bytes::text_len(rest);
    if len == rest.len() {
        return None;
    }
    Some((
        TokenKind::Text,
        len - bytes::trailing_blanks_len(&rest[..len]),
    ))
}

/// The token that a text begins with, and how many bytes it has.
#[tactic(auto, using(crate::proofs::LongestLaws::found_is), unfolding(rl_lexical::specs::Fronts::token_in_front))]
pub fn token_in_front(context: Context, rest: &[u8]) -> Option<(TokenKind, usize)>
    requires { length rest.now < 2 ^ 63 }
    ensures value { result ≡ token_in_front context rest.now }
    ensures bound { IfSome result (λ x. x.1 ≤ length rest.now) }
{
    if is_text(context.expected) {
        text(rest)
    } else {
        longest(context, rest)
    }
}

// The bytes that a text in quotes stands for.
ghost use Rattle.std.specs.Prelude.{◌≡◌, ◌<◌, ◌≤◌, ◌↔◌, ◌&&◌, nat_le, IsTrue, true, [], ◌∷◌, ◌++◌, length, None, Some, option_map, MatchOption, IfSome, IfOk};
ghost use Rattle.std.specs.Bool.{then_some};
ghost use Rattle.rl_replay.specs.Script.{escape_of, hex_of, plain, backslash, hex, digit, unquoted, with_byte, bytes_of};

use std::alloc::AllocError;

// The byte that an escape of one letter stands for.
fn letter(b: u8) -> Option<u8>
    ensures { result ≡ escape_of b }
{
    match b {
        b'n' => Some(b'\n'),
        b'r' => Some(b'\r'),
        b't' => Some(b'\t'),
        b'0' => Some(0),
        b'\\' | b'"' => Some(b),
        _ => None,
    }
}

fn is_between(low: u8, b: u8, high: u8) -> bool
    ensures value { result ≡ (nat_le low b && nat_le b high) }
    ensures within { result ≡ true → (low ≤ b) × (b ≤ high) }
{
    low <= b && b <= high
}

// The value of a hexadecimal digit.
fn hex_value(b: u8) -> Option<u8>
    ensures value { result ≡ hex_of b }
    ensures small { IfSome result (λ n. n < 16) }
{
    if is_between(b'0', b, b'9') {
        Some(b - b'0')
    } else if is_between(b'A', b, b'F') {
        Some(b - (b'A' - 10))
    } else if is_between(b'a', b, b'f') {
        Some(b - (b'a' - 10))
    } else {
        None
    }
}

// A byte by its second digit, behind the value of its first.
fn second_digit(high: u8, text: &[u8]) -> Option<(u8, &[u8])>
    requires { high < 16 }
    ensures value { MatchOption result (unquoted (digit high) text.now ≡ None) (λ p. unquoted (digit high) text.now ≡ with_byte p.0 (unquoted plain p.1.now)) }
    ensures shorter { IfSome result (λ p. length p.1.now < length text.now) }
{
    match text {
        [b, rest @ ..] => {
            let low = hex_value(*b)?;
            Some((high * 16 + low, rest))
        }
        [] => None,
    }
}

// A byte by its two digits.
fn two_digits(text: &[u8]) -> Option<(u8, &[u8])>
    ensures value { MatchOption result (unquoted hex text.now ≡ None) (λ p. unquoted hex text.now ≡ with_byte p.0 (unquoted plain p.1.now)) }
    ensures shorter { IfSome result (λ p. length p.1.now < length text.now) }
{
    match text {
        [b, rest @ ..] => {
            let high = hex_value(*b)?;
            second_digit(high, rest)
        }
        [] => None,
    }
}

// A byte by its escape, behind the backslash.
fn escaped(text: &[u8]) -> Option<(u8, &[u8])>
    ensures value { MatchOption result (unquoted backslash text.now ≡ None) (λ p. unquoted backslash text.now ≡ with_byte p.0 (unquoted plain p.1.now)) }
    ensures shorter { IfSome result (λ p. length p.1.now < length text.now) }
{
    match text {
        [b'x', rest @ ..] => two_digits(rest),
        [b, rest @ ..] => {
            let byte = letter(*b)?;
            Some((byte, rest))
        }
        [] => None,
    }
}

fn is_quote(text: &[u8]) -> bool
    ensures { IsTrue result ↔ (text.now ≡ 34 ∷ []) }
{
    text == b"\"".as_slice()
}

// The next byte; there is none at the second quote, or where an escape has no form.
fn next_byte(text: &[u8]) -> Option<(u8, &[u8])>
    ensures value { MatchOption result ((text.now ≡ 34 ∷ [] → ⊥) → unquoted plain text.now ≡ None) (λ p. unquoted plain text.now ≡ with_byte p.0 (unquoted plain p.1.now)) }
    ensures shorter { IfSome result (λ p. length p.1.now < length text.now) }
{
    match text {
        [b'"', ..] => None,
        [b'\\', rest @ ..] => escaped(rest),
        [b, rest @ ..] => Some((*b, rest)),
        [] => None,
    }
}

// Adds the bytes behind the first quote. Where they have no form the answer is no.
fn push_unquoted(bytes: &mut Vec<u8>, text: &[u8]) -> Result<bool, AllocError>
    ensures { IfOk result (λ good. option_map (λ x. bytes.old.items ++ x) (unquoted plain text.now) ≡ then_some good bytes.new.items) }
{
    let mut rest = text;
    'quoted: while !is_quote(rest) {
        let Some((byte, behind)) = next_byte(rest) else {
            return Ok(false);
        };
        bytes.push(byte)?;
        rest = behind;
    }
    Ok(true)
}

/// Adds the bytes that a text in quotes stands for. Where it has no form the answer is no.
pub fn push_bytes(bytes: &mut Vec<u8>, text: &[u8]) -> Result<bool, AllocError>
    ensures { IfOk result (λ good. option_map (λ x. bytes.old.items ++ x) (bytes_of text.now) ≡ then_some good bytes.new.items) }
{
    match text {
        [b'"', rest @ ..] => push_unquoted(bytes, rest),
        _ => Ok(false),
    }
}

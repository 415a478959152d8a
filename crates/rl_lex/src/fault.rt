// Which tokens are faults.
ghost use Rattle.std.specs.Prelude.{◌≡◌, ◌≤◌, nat_le, drop};
ghost use Rattle.std.specs.Char.{digit_value};
ghost use Rattle.std.specs.Str.Parse.{digits_value};
ghost use Rattle.std.specs.List.{list_all};
ghost use Rattle.rl_lexical.specs.Bytes.{is_hex_digit};
ghost use Rattle.rl_lexical.specs.Forms.{fault_of};
ghost use Rattle.rl_lexical.specs.Words.{is_hexadecimal, fits};

use crate::bytes::is_hex_digit;
use crate::form::{is_regular_expression, is_set};
use rl_grammar::TokenKind;
use rl_types::FaultKind;

/// The greatest number that fits 64 bits with a sign.
const MOST: u128 = 9_223_372_036_854_775_807;

/// The value of a digit, and 36 for other bytes.
fn digit_value(b: u8) -> u128
    ensures value { result ≡ digit_value b }
    ensures bound { result ≤ 36 }
{
    match b {
        b'0'..=b'9' => u128::from(b) - 48,
        b'A'..=b'Z' => u128::from(b) - 55,
        b'a'..=b'z' => u128::from(b) - 87,
        _ => 36,
    }
}

/// Whether the value of digits fits 64 bits with a sign.
fn fits_in(radix: u128, digits: &[u8]) -> bool
    requires some { 1 ≤ radix }
    requires most { radix ≤ 16 }
    ensures { result ≡ nat_le (digits_value radix digits.now) 9223372036854775807 }
{
    let mut value = 0;
    for b in digits {
        value = value * radix + digit_value(*b);
        if value > MOST {
            return false;
        }
    }
    true
}

fn are_hex_digits(digits: &[u8]) -> bool
    ensures { result ≡ list_all is_hex_digit digits.now }
{
    digits.iter().all(|b| is_hex_digit(*b))
}

fn is_hexadecimal(text: &[u8]) -> bool
    ensures { result ≡ is_hexadecimal text.now }
{
    match text {
        [] | [_] | [_, _] => false,
        [a, b, digits @ ..] => *a == b'0' && *b == b'x' && are_hex_digits(digits),
    }
}

/// Whether an integer fits 64 bits with a sign.
fn fits(text: &[u8]) -> bool
    ensures { result ≡ fits text.now }
{
    if is_hexadecimal(text) {
        fits_in(16, behind_first(behind_first(text)))
    } else {
        fits_in(10, text)
    }
}

/// What is behind the first byte.
fn behind_first(text: &[u8]) -> &[u8]
    ensures { result.now ≡ drop 1 text.now }
{
    match text {
        [] => text,
        [_, rest @ ..] => rest,
    }
}

/// What is wrong with a token.
pub fn fault_of(kind: TokenKind, text: &[u8]) -> Option<FaultKind>
    ensures { result ≡ fault_of kind text.now }
{
    match kind {
        TokenKind::Set if !is_set(behind_first(text)) => Some(FaultKind::F1),
        TokenKind::RegularExpression if !is_regular_expression(behind_first(text)) => {
            Some(FaultKind::F1)
        }
        TokenKind::Integer if !fits(text) => Some(FaultKind::F7),
        _ => None,
    }
}

// The numbers of counts, priorities and keys.
ghost use Rattle.std.specs.Prelude.{◌≡◌, ◌≤◌, nat_le};
ghost use Rattle.std.specs.Char.{digit_value};
ghost use Rattle.std.specs.Str.Parse.{digits_value};
ghost use Rattle.rl_names.specs.Answers.{Gives};
ghost use Rattle.rl_names.specs.Leaves.{fits, count_read, number_read};

use crate::memory::fault_at;
use rl_grammar::ReadFault;
use rl_grammar::syntax::{Number, Word};
use rl_leaves::{count, signed};
use rl_types::FaultKind;

/// The greatest number that fits 64 bits with a sign.
const MOST: u128 = 9_223_372_036_854_775_807;

/// The value of a digit, and 36 for other bytes.
fn digit_value(b: u8) -> u128
    ensures value { result ≡ digit_value b }
    ensures bound { result ≤ 36 }
{
    match b {
        b'0'..=b'9' => u128::from(b) - 48,
        b'A'..=b'Z' => u128::from(b) - 55,
        b'a'..=b'z' => u128::from(b) - 87,
        _ => 36,
    }
}

/// Whether the value of digits fits 64 bits with a sign.
fn fits_in(radix: u128, digits: &[u8]) -> bool
    requires some { 1 ≤ radix }
    requires most { radix ≤ 16 }
    ensures { result ≡ nat_le (digits_value radix digits.now) 9223372036854775807 }
{
    let mut value = 0;
    for b in digits {
        value = value * radix + digit_value(*b);
        if value > MOST {
            return false;
        }
    }
    true
}

/// Whether an integer fits 64 bits with a sign.
fn fits(text: &[u8]) -> bool
    ensures { result ≡ fits text.now }
{
    match text {
        [] | [_] => fits_in(10, text),
        [first, second, digits @ ..] => {
            if *first == b'0' && *second == b'x' {
                fits_in(16, digits)
            } else {
                fits_in(10, text)
            }
        }
    }
}

/// The number that an integer writes, as it stands in a count.
pub fn count_of(word: &Word) -> Result<u64, ReadFault>
    ensures { Gives (count_read word.now) result }
{
    if fits(word.text.as_slice()) {
        Ok(count(word.text.as_slice()))
    } else {
        Err(fault_at(FaultKind::F7, word.place))
    }
}

/// The number that stands behind a `-`, or without one.
pub fn number_of(number: &Number) -> Result<i64, ReadFault>
    ensures { Gives (number_read number.now) result }
{
    if fits(number.digits.text.as_slice()) {
        Ok(signed(number.minus.is_some(), number.digits.text.as_slice()))
    } else {
        Err(fault_at(FaultKind::F7, number.digits.place))
    }
}

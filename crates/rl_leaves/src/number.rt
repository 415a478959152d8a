// The numbers that integers write.
ghost use Rattle.std.specs.Prelude.{◌≡◌, ◌<◌, ◌≤◌, ◌^◌};
ghost use Rattle.std.specs.Char.{digit_value};
ghost use Rattle.std.specs.Str.Parse.{digits_value};
ghost use Rattle.rl_grammar.specs.Literals.{number};
ghost use Rattle.rl_leaves.specs.Keys.{signed};

/// The value of a digit, and 36 for other bytes.
fn digit_value(b: u8) -> u64
    ensures value { result ≡ digit_value b }
    ensures bound { result ≤ 36 }
{
    match b {
        b'0'..=b'9' => u64::from(b) - 48,
        b'A'..=b'Z' => u64::from(b) - 55,
        b'a'..=b'z' => u64::from(b) - 87,
        _ => 36,
    }
}

/// The number that digits write.
#[tactic(auto, using(crate::proofs::NumberLaws::fits))]
fn digits_value(radix: u64, digits: &[u8]) -> u64
    requires some { 1 ≤ radix }
    requires fits { digits_value radix digits.now < 2 ^ 63 }
    ensures { result ≡ digits_value radix digits.now }
{
    let mut value = 0;
    for b in digits {
        value = value * radix + digit_value(*b);
    }
    value
}

/// The number that an integer writes, as it stands in a count (the guide's section 2.3): hexadecimal behind `0x`, else
/// decimal. Integers that are larger are refused before, as F7.
pub fn count(text: &[u8]) -> u64
    requires { number text.now < 2 ^ 63 }
    ensures { result ≡ number text.now }
{
    match text {
        [] | [_] => digits_value(10, text),
        [first, second, digits @ ..] => {
            if *first == b'0' && *second == b'x' {
                digits_value(16, digits)
            } else {
                digits_value(10, text)
            }
        }
    }
}

/// The number that an integer writes behind a `-`, or without one, as it stands in a key or a priority.
pub fn signed(is_negative: bool, text: &[u8]) -> i64
    requires { number text.now < 2 ^ 63 }
    ensures { result ≡ signed is_negative text.now }
{
    let value = count(text) as i64;
    if is_negative { -value } else { value }
}

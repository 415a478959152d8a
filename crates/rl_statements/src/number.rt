// The numbers that are added in goals.
ghost use Rattle.std.specs.Prelude.{◌≡◌, ◌+◌, ◌<◌, ◌≤◌, ◌^◌, pos, neg_ℤ, nat_le, length, MatchOption, None, Some, false, option_map};
ghost use Rattle.std.specs.List.{list_all};
ghost use Rattle.std.specs.Char.{digit_value};
ghost use Rattle.std.specs.Str.Parse.{digits_value};
ghost use Rattle.rl_arrays.specs.Names as names;
ghost use Rattle.rl_code.specs.Forms as forms;

use rl_bytes::{are_blanks, behind_blanks, digits_len, is_digit};

/// The value of a digit, and 36 for other bytes.
fn digit_value(b: u8) -> u128
    ensures value { result ≡ digit_value b }
    ensures bound { result ≤ 36 }
{
    match b {
        b'0'..=b'9' => u128::from(b) - 48,
        b'A'..=b'Z' => u128::from(b) - 55,
        b'a'..=b'z' => u128::from(b) - 87,
        _ => 36,
    }
}

/// The value of decimal digits, if it is no greater than the limit.
fn value_up_to(limit: u128, digits: &[u8]) -> Option<u128>
    requires { limit ≤ 2 ^ 63 }
    ensures { MatchOption result (nat_le (digits_value 10 digits.now) limit ≡ false) (λ n. (n ≡ digits_value 10 digits.now) × (n ≤ limit)) }
{
    let mut value = 0;
    for b in digits {
        value = value * 10 + digit_value(*b);
        if value > limit {
            return None;
        }
    }
    Some(value)
}

fn are_digits(bytes: &[u8]) -> bool
    ensures { result ≡ list_all names.is_digit bytes.now }
{
    bytes.iter().all(|b| is_digit(*b))
}

/// Whether the bytes are decimal digits without leading zeros.
fn is_number(bytes: &[u8]) -> bool
    ensures { result ≡ names.is_number bytes.now }
{
    match bytes {
        [] => false,
        [only] => is_digit(*only),
        [first, rest @ ..] => is_digit(*first) && *first != b'0' && are_digits(rest),
    }
}

/// The number that all of a text is but blanks, where it is no greater than the limit.
fn only_number(limit: u128, text: &[u8]) -> Option<u128>
    requires { limit ≤ 2 ^ 63 }
    ensures { MatchOption result (forms.only_number limit text.now ≡ None) (λ n. (forms.only_number limit text.now ≡ Some n) × (n ≤ limit)) }
{
    let text = behind_blanks(text);
    let (digits, behind) = text.split_at(digits_len(text));
    if is_number(digits) && are_blanks(behind) {
        value_up_to(limit, digits)
    } else {
        None
    }
}

fn positive(n: u128) -> i64
    requires { n < 2 ^ 63 }
    ensures { result ≡ pos n }
{
    n as i64
}

fn negative(n: u128) -> i64
    requires { n ≤ 2 ^ 63 }
    ensures { result ≡ neg_ℤ (pos n) }
{
    let n = n as i128;
    (-n) as i64
}

/// What is added behind a `+`.
pub fn added(text: &[u8]) -> Option<i64>
    ensures { result ≡ option_map (λ n. pos n) (forms.only_number 9223372036854775807 text.now) }
{
    match only_number(9_223_372_036_854_775_807, text) {
        Some(n) => Some(positive(n)),
        None => None,
    }
}

/// What is added behind a `-`.
pub fn taken(text: &[u8]) -> Option<i64>
    ensures { result ≡ option_map (λ n. neg_ℤ (pos n)) (forms.only_number 9223372036854775808 text.now) }
{
    match only_number(9_223_372_036_854_775_808, text) {
        Some(n) => Some(negative(n)),
        None => None,
    }
}

// Numbers in decimal.
ghost use Rattle.std.specs.Prelude.{◌≡◌, ◌≤◌, ◌<◌, ◌^◌, ℕ, ◌+◌, ◌*◌, ◌-◌, pos, neg_ℤ, decimal, MatchOption, IfSome, option_map};
ghost use Rattle.std.specs.Str.{bytes_eq};
ghost use Rattle.rl_replay.specs.Script.{value_of, number_of, count_of, goal_of};

use itoa::Buffer;

// One more digit.
fn with_digit(n: u64, digit: u8) -> Option<u64>
    ensures { MatchOption result (2 ^ 64 ≤ n * 10 + (digit - 48)) (λ more. more ≡ n * 10 + (digit - 48)) }
{
    n.checked_mul(10)?
        .checked_add(u64::from(digit.saturating_sub(b'0')))
}

// The value of digits, where it fits.
fn value_of(word: &[u8]) -> Option<u64>
    ensures { MatchOption result (2 ^ 64 ≤ value_of word.now) (λ n. n ≡ value_of word.now) }
{
    let mut n = 0;
    for digit in word {
        n = with_digit(n, *digit)?;
    }
    Some(n)
}

// Whether a word is how a number is written.
fn writes(n: u64, word: &[u8]) -> bool
    ensures { result ≡ bytes_eq (decimal n) word.now }
{
    let mut buffer = Buffer::new();
    let written = buffer.format(n).as_bytes();
    written == word
}

/// The number that a word spells in decimal, without leading zeros, where it is one of those from low to high.
pub fn number_of(low: u64, high: u64, word: &[u8]) -> Option<u64>
    ensures value { result ≡ number_of low high word.now }
    ensures within { IfSome result (λ n. n ≤ high) }
{
    let n = value_of(word)?;
    if writes(n, word) && low <= n && n <= high {
        Some(n)
    } else {
        None
    }
}

/// A count, or the number of a statement: 1 to 4,294,967,295.
pub fn count_of(word: &[u8]) -> Option<u32>
    ensures { result ≡ count_of word.now }
{
    match number_of(1, 4_294_967_295, word) {
        Some(n) => Some(n as u32),
        None => None,
    }
}

// A number with a minus sign in front.
fn negative(n: u64) -> i64
    requires { n ≤ 2 ^ 63 }
    ensures { result ≡ neg_ℤ (pos n) }
{
    (-i128::from(n)) as i64
}

fn goal_below_zero(digits: &[u8]) -> Option<i64>
    ensures { result ≡ option_map (λ n. neg_ℤ (pos n)) (number_of 0 (2 ^ 63) digits.now) }
{
    match number_of(0, 9_223_372_036_854_775_808, digits) {
        Some(n) => Some(negative(n)),
        None => None,
    }
}

fn goal_from_zero(digits: &[u8]) -> Option<i64>
    ensures { result ≡ option_map (λ n. pos n) (number_of 0 (2 ^ 63 - 1) digits.now) }
{
    match number_of(0, 9_223_372_036_854_775_807, digits) {
        Some(n) => Some(n as i64),
        None => None,
    }
}

/// A goal, which may have a sign, of 64 bits.
pub fn goal_of(word: &[u8]) -> Option<i64>
    ensures { result ≡ goal_of word.now }
{
    match word {
        [b'-', digits @ ..] => goal_below_zero(digits),
        [_, ..] => goal_from_zero(word),
        [] => None,
    }
}

//! Sums of lengths. They are whole numbers: a negative length enters as it is, and a missing one leaves no sum.
ghost use Rattle.std.specs.Prelude.{◌≡◌, ◌<◌, ◌≤◌, ◌+◌, ◌*◌, ◌^◌, ◌↔◌, IsTrue, Some, pos, length, slice_get, IfSome};
ghost use Rattle.rl_arrays.specs.Words.{plus, sum_before};
ghost use Rattle.rl_arrays.specs.Sizes.{keys_of, uses_of, statements_of, keys_end, uses_end, statements_end, one_more};
ghost use Rattle.rl_arrays.specs.Rules.{IsSum};
ghost use Rattle.rl_tables.specs.Small.{IsUpTo};

use rl_arrays::Arrays;

/// The number at an index.
pub(crate) fn number_at(xs: &[i64], i: usize) -> Option<i128>
    ensures value { result ≡ slice_get xs.now i }
    ensures small { IsUpTo (2 ^ 63) result }
{
    match xs.get(i) {
        Some(x) => Some(i128::from(*x)),
        None => None,
    }
}

/// How many places a state's keys take.
pub(crate) fn keys_of_state(a: &Arrays, s: usize) -> Option<i128>
    ensures value { result ≡ keys_of a.now s }
    ensures small { IsUpTo (2 ^ 66) result }
{
    let singles = number_at(a.single_lengths.as_slice(), s);
    let ranges = number_at(a.range_lengths.as_slice(), s);
    match singles {
        Some(m) => match ranges {
            Some(n) => Some(m + (n + n)),
            None => None,
        },
        None => None,
    }
}

/// How many cells the keys of a state use.
pub(crate) fn uses_of_state(a: &Arrays, s: usize) -> Option<i128>
    ensures value { result ≡ uses_of a.now s }
    ensures small { IsUpTo (2 ^ 66) result }
{
    let singles = number_at(a.single_lengths.as_slice(), s);
    let ranges = number_at(a.range_lengths.as_slice(), s);
    match singles {
        Some(m) => match ranges {
            Some(n) => Some(m + n),
            None => None,
        },
        None => None,
    }
}

/// A sum of so many widths, with one more.
pub(crate) fn longer(sum: Option<i128>, width: Option<i128>, widths: usize) -> Option<i128>
    requires left { IsUpTo (widths * 2 ^ 66) sum }
    requires right { IsUpTo (2 ^ 66) width }
    requires few { widths < 2 ^ 60 }
    ensures value { result ≡ plus sum width }
    ensures small { IsUpTo ((widths + 1) * 2 ^ 66) result }
{
    match sum {
        Some(m) => match width {
            Some(n) => Some(m + n),
            None => None,
        },
        None => None,
    }
}

/// Whether a number is the sum, where there is one.
pub(crate) fn is_sum(sum: Option<i128>, n: i64) -> bool
    ensures { IsTrue result ↔ IfSome sum (λ m. n ≡ m) }
{
    match sum {
        Some(m) => m == i128::from(n),
        None => true,
    }
}

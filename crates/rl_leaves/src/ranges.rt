// Keys gathered in ranges.
ghost use Rattle.std.specs.Prelude.{◌≡◌, ◌++◌, ◌∷◌, [], ℤ, ◌≤ℤ◌, ◌+ℤ◌};
ghost use Rattle.std.specs.Prelude.{◌-ℤ◌, pos, negsuc, ◌&&◌, IfSome, IfOk, option_to_list};
ghost use Rattle.rl_types.specs.Alphabet.{least_key, greatest_key, has_key};
ghost use Rattle.rl_leaves.specs.CharacterSets.{other_case, has};
ghost use Rattle.rl_leaves.specs.Ranges.{set_ranges, in_ranges, only, character_ranges, is_before, joined, put, put_some};
ghost use Rattle.rl_leaves.specs.Ranges.{from_to, part, moved, put_letters, put_cases, put_range, span_range, put_span};
ghost use Rattle.rl_leaves.specs.Ranges.{put_spans, left_out, complement, negated, emitted, held_behind};
ghost use Rattle.rl_leaves.specs.Forms.{AreRanges};

use crate::character_set::{CharacterSet, Span, byte_key, is_lower, is_upper, other_case};
use crate::memory::push;
use rl_types::{Alphabet, Key, KeyRange, List, Memory};
use std::alloc::Global;

/// The keys from one to another.
pub fn range_between(lo: i64, hi: i64) -> KeyRange
    requires { lo ≤ℤ hi }
    ensures { result ≡ record { lo = lo; hi = hi } }
{
    match KeyRange::new(lo, hi) {
        Some(range) => range,
        None => unreachable!(),
    }
}

/// A key alone.
pub fn only(key: i64) -> KeyRange
    ensures { result ≡ only key }
{
    range_between(key, key)
}

/// The keys from one to another, if there are any.
fn from_to(lo: i64, hi: i64) -> Option<KeyRange>
    ensures { result ≡ from_to lo hi }
{
    if lo <= hi {
        Some(range_between(lo, hi))
    } else {
        None
    }
}

/// The ranges of one range. An `Err` is want of memory.
pub fn one_range(alloc: Global, range: KeyRange) -> Result<List<KeyRange>, Memory>
    ensures { IfOk result (λ ranges. ranges ≡ range ∷ []) }
{
    let mut ranges = List::new(alloc);
    push(&mut ranges, range)?;
    Ok(ranges)
}

/// The ranges of two ranges. An `Err` is want of memory.
fn two_ranges(alloc: Global, first: KeyRange, second: KeyRange) -> Result<List<KeyRange>, Memory>
    ensures { IfOk result (λ ranges. ranges ≡ first ∷ second ∷ []) }
{
    let mut ranges = List::new(alloc);
    push(&mut ranges, first)?;
    push(&mut ranges, second)?;
    Ok(ranges)
}

/// The ranges that name one character.
fn named_ranges(
    alloc: Global,
    alphabet: Alphabet,
    folds: bool,
    byte: u8,
) -> Result<List<KeyRange>, Memory>
    ensures { IfOk result (λ ranges. ranges ≡ character_ranges alphabet folds byte) }
{
    let key = byte_key(alphabet, byte);
    if folds && is_upper(key) {
        two_ranges(alloc, only(key), only(other_case(key)))
    } else if folds && is_lower(key) {
        two_ranges(alloc, only(other_case(key)), only(key))
    } else {
        one_range(alloc, only(key))
    }
}

/// The ranges of one character. An `Err` is want of memory.
pub fn character_ranges(
    alloc: Global,
    alphabet: Alphabet,
    folds: bool,
    byte: u8,
) -> Result<List<KeyRange>, Memory>
    ensures value { IfOk result (λ ranges. ranges ≡ character_ranges alphabet folds byte) }
    ensures form { IfOk result (AreRanges alphabet) }
{
    named_ranges(alloc, alphabet, folds, byte)
}

/// Whether a key stands between the end of the first range and the second one.
fn is_before(first: KeyRange, second: KeyRange) -> bool
    ensures { result ≡ is_before first second }
{
    if second.lo() <= first.hi() {
        return false;
    }
    first.hi() + 1 < second.lo()
}

/// Two ranges that overlap or adjoin, as one.
fn joined(first: KeyRange, second: KeyRange) -> KeyRange
    ensures { result ≡ joined first second }
{
    range_between(first.lo().min(second.lo()), first.hi().max(second.hi()))
}

/// What is held of a range behind one of the others: nothing, once it has been pushed.
fn put_at(
    found: &mut List<KeyRange>,
    held: Option<KeyRange>,
    other: KeyRange,
) -> Result<Option<KeyRange>, Memory>
    ensures value { IfOk result (λ left. left ≡ held_behind held other) }
    ensures pushed { IfOk result (λ _. found.new ≡ found.old ++ emitted held other) }
{
    match held {
        None => {
            push(found, other)?;
            Ok(None)
        }
        Some(range) => {
            if is_before(other, range) {
                push(found, other)?;
                Ok(Some(range))
            } else if is_before(range, other) {
                push(found, range)?;
                push(found, other)?;
                Ok(None)
            } else {
                Ok(Some(joined(range, other)))
            }
        }
    }
}

/// Puts a range at the end of ranges, if there is one.
fn close(ranges: &mut List<KeyRange>, range: Option<KeyRange>) -> Result<(), Memory>
    ensures { IfOk result (λ _. ranges.new ≡ ranges.old ++ option_to_list range) }
{
    match range {
        None => Ok(()),
        Some(range) => push(ranges, range),
    }
}

/// A range put among ascending ones: it becomes one with those that it overlaps or adjoins.
fn put(alloc: Global, range: KeyRange, ranges: &[KeyRange]) -> Result<List<KeyRange>, Memory>
    ensures { IfOk result (λ all. all ≡ put range ranges.now) }
{
    let mut found = List::new(alloc);
    let mut held = Some(range);
    for other in ranges {
        held = put_at(&mut found, held, *other)?;
    }
    close(&mut found, held)?;
    Ok(found)
}

fn put_some(
    alloc: Global,
    range: Option<KeyRange>,
    ranges: List<KeyRange>,
) -> Result<List<KeyRange>, Memory>
    ensures { IfOk result (λ all. all ≡ put_some range ranges) }
{
    match range {
        None => Ok(ranges),
        Some(range) => put(alloc, range, ranges.as_slice()),
    }
}

/// The keys of a range from one key to another.
fn part(first: i64, last: i64, range: KeyRange) -> Option<KeyRange>
    ensures value { result ≡ part first last range }
    ensures low { IfSome result (λ r. first ≤ℤ r.lo) }
    ensures high { IfSome result (λ r. r.hi ≤ℤ last) }
{
    from_to(range.lo().max(first), range.hi().min(last))
}

/// The keys of a range from one code to another, all of them moved.
fn moved_part(first: i64, last: i64, by: i64, range: KeyRange) -> Option<KeyRange>
    requires low { pos 0 ≤ℤ first }
    requires high { last ≤ℤ pos 127 }
    requires back { negsuc 127 ≤ℤ by }
    requires forth { by ≤ℤ pos 127 }
    ensures { result ≡ moved by (part first last range) }
{
    match part(first, last, range) {
        None => None,
        Some(part) => Some(range_between(part.lo() + by, part.hi() + by)),
    }
}

/// The capital letters of a range as small ones.
fn lowered(range: KeyRange) -> Option<KeyRange>
    ensures { result ≡ moved (pos 32) (part (pos 65) (pos 90) range) }
{
    moved_part(65, 90, 32, range)
}

/// The small letters of a range as capital ones.
fn raised(range: KeyRange) -> Option<KeyRange>
    ensures { result ≡ moved (negsuc 31) (part (pos 97) (pos 122) range) }
{
    moved_part(97, 122, -32, range)
}

/// The ASCII letters of a range put among others in the other case.
fn put_letters(
    alloc: Global,
    range: KeyRange,
    ranges: List<KeyRange>,
) -> Result<List<KeyRange>, Memory>
    ensures { IfOk result (λ all. all ≡ put_letters range ranges) }
{
    let with_small = put_some(alloc, lowered(range), ranges)?;
    put_some(alloc, raised(range), with_small)
}

/// A range put among others; where case is ignored, its letters also in the other case.
fn put_cases(
    alloc: Global,
    folds: bool,
    range: KeyRange,
    ranges: &[KeyRange],
) -> Result<List<KeyRange>, Memory>
    ensures { IfOk result (λ all. all ≡ put_cases folds range ranges.now) }
{
    let plain = put(alloc, range, ranges)?;
    if folds {
        put_letters(alloc, range, plain)
    } else {
        Ok(plain)
    }
}

fn put_range(
    alloc: Global,
    folds: bool,
    range: Option<KeyRange>,
    ranges: List<KeyRange>,
) -> Result<List<KeyRange>, Memory>
    ensures { IfOk result (λ all. all ≡ put_range folds range ranges) }
{
    match range {
        None => Ok(ranges),
        Some(range) => put_cases(alloc, folds, range, ranges.as_slice()),
    }
}

/// The keys from the lower end of a span to the upper one; none where it is above.
fn span_range(alphabet: Alphabet, span: Span) -> Option<KeyRange>
    ensures { result ≡ span_range alphabet span }
{
    from_to(
        byte_key(alphabet, span.lower),
        byte_key(alphabet, span.upper),
    )
}

fn put_span(
    alloc: Global,
    alphabet: Alphabet,
    folds: bool,
    span: Span,
    ranges: List<KeyRange>,
) -> Result<List<KeyRange>, Memory>
    ensures { IfOk result (λ all. all ≡ put_span alphabet folds span ranges) }
{
    put_range(alloc, folds, span_range(alphabet, span), ranges)
}

/// The ranges of spans.
fn put_spans(
    alloc: Global,
    alphabet: Alphabet,
    folds: bool,
    spans: &[Span],
) -> Result<List<KeyRange>, Memory>
    ensures { IfOk result (λ all. all ≡ put_spans alphabet folds spans.now []) }
{
    let mut ranges = List::new(alloc);
    for span in spans {
        ranges = put_span(alloc, alphabet, folds, *span, ranges)?;
    }
    Ok(ranges)
}

/// The keys between two keys, if there are any.
fn between(before: i64, behind: i64) -> Option<KeyRange>
    ensures { result ≡ from_to (before +ℤ pos 1) (behind -ℤ pos 1) }
{
    if behind <= before {
        return None;
    }
    from_to(before + 1, behind - 1)
}

/// The keys between a key and a range, if there are any.
fn gap_before(last: Key, range: KeyRange) -> Option<KeyRange>
    ensures { result ≡ from_to (last.0 +ℤ pos 1) (range.lo -ℤ pos 1) }
{
    between(last.0, range.lo())
}

fn last_gap(last: Key, behind: Key) -> Option<KeyRange>
    ensures { result ≡ from_to (last.0 +ℤ pos 1) (behind.0 -ℤ pos 1) }
{
    between(last.0, behind.0)
}

fn end_of(range: KeyRange) -> Key
    ensures { result.0 ≡ range.hi }
{
    Key(range.hi())
}

/// The keys between two keys that ascending ranges leave out.
fn left_out(
    alloc: Global,
    before: Key,
    behind: Key,
    ranges: &[KeyRange],
) -> Result<List<KeyRange>, Memory>
    ensures { IfOk result (λ all. all ≡ left_out before.0 behind.0 ranges.now) }
{
    let mut found = List::new(alloc);
    let mut last = before;
    for range in ranges {
        close(&mut found, gap_before(last, *range))?;
        last = end_of(*range);
    }
    close(&mut found, last_gap(last, behind))?;
    Ok(found)
}

#[tactic(auto, using(crate::proofs::GatherLaws::least_fits))]
fn before_least(alphabet: Alphabet) -> Key
    ensures { result.0 ≡ least_key alphabet -ℤ pos 1 }
{
    Key(alphabet.least_key() - 1)
}

#[tactic(auto, using(crate::proofs::GatherLaws::greatest_fits))]
fn behind_greatest(alphabet: Alphabet) -> Key
    ensures { result.0 ≡ greatest_key alphabet +ℤ pos 1 }
{
    Key(alphabet.greatest_key() + 1)
}

/// The keys of the alphabet that ascending ranges leave out.
fn complement(
    alloc: Global,
    alphabet: Alphabet,
    ranges: &[KeyRange],
) -> Result<List<KeyRange>, Memory>
    ensures { IfOk result (λ all. all ≡ complement alphabet ranges.now) }
{
    left_out(
        alloc,
        before_least(alphabet),
        behind_greatest(alphabet),
        ranges,
    )
}

/// What a `^` makes of ranges.
fn negated(
    alloc: Global,
    alphabet: Alphabet,
    is_negated: bool,
    ranges: List<KeyRange>,
) -> Result<List<KeyRange>, Memory>
    ensures { IfOk result (λ all. all ≡ negated alphabet is_negated ranges) }
{
    if is_negated {
        complement(alloc, alphabet, ranges.as_slice())
    } else {
        Ok(ranges)
    }
}

/// The ranges of the keys that a set of characters has.
fn ranges_of(
    alloc: Global,
    alphabet: Alphabet,
    folds: bool,
    set: &CharacterSet,
) -> Result<List<KeyRange>, Memory>
    ensures { IfOk result (λ ranges. ranges ≡ set_ranges alphabet folds set.now) }
{
    let named = put_spans(alloc, alphabet, folds, set.spans.as_slice())?;
    negated(alloc, alphabet, set.is_negated, named)
}

/// The ranges of a set of characters. An `Err` is want of memory.
pub fn set_ranges(
    alloc: Global,
    alphabet: Alphabet,
    folds: bool,
    set: &CharacterSet,
) -> Result<List<KeyRange>, Memory>
    ensures value { IfOk result (λ ranges. ranges ≡ set_ranges alphabet folds set.now) }
    ensures form { IfOk result (AreRanges alphabet) }
    ensures keys { IfOk result (λ ranges. (key : ℤ) → in_ranges key ranges
        ≡ (has_key alphabet key && has alphabet folds set.now key)) }
{
    ranges_of(alloc, alphabet, folds, set)
}

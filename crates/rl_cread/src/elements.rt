//! The elements of an array's line.
ghost use Rattle.std.specs.Prelude.{◌≡◌, ℕ, ℤ, List, ◌∷◌, map, IsTrue, IfOk, MatchOption};
ghost use Rattle.std.specs.List.{AllByRecursion};
ghost use Rattle.std.specs.Fmt.{signed_decimal};
ghost use Rattle.rl_arrays.specs.Section.{joined, quoted};
ghost use Rattle.rl_cread.specs.Contents.{IsPrintedNumber, IsPrintedName};
ghost use Rattle.rl_cread.specs.Elements.{spaced_number, spaced_name};

use crate::names::is_printed;
use crate::numbers::number;
use crate::texts::{between, parts};
use rl_types::{List, Name};
use std::alloc::{AllocError, Global};

/// The number that stands behind a blank.
fn number_behind(alloc: Global, part: &[u8]) -> Result<Option<i64>, AllocError>
    ensures { IfOk result (λ r. MatchOption r ((n : ℤ) → IsPrintedNumber n → part.now ≡ spaced_number n → ⊥) (λ n. IsPrintedNumber n × (part.now ≡ spaced_number n))) }
{
    match part.strip_prefix(b" ") {
        Some(text) => number(alloc, text),
        None => Ok(None),
    }
}

/// The name that stands behind a blank, between double quotes.
fn name_behind(alloc: Global, part: &[u8]) -> Result<Option<Name>, AllocError>
    ensures { IfOk result (λ r. MatchOption r ((name : List ℕ) → IsPrintedName name → part.now ≡ spaced_name name → ⊥) (λ name. IsPrintedName name × (part.now ≡ spaced_name name))) }
{
    match between(part, b" \"", b"\"") {
        Some(bytes) => {
            if is_printed(bytes) {
                Ok(Some(Name::new(Vec::from_slice(alloc, bytes)?)))
            } else {
                Ok(None)
            }
        }
        None => Ok(None),
    }
}

/// The numbers of these parts.
fn numbers_of(alloc: Global, parts: &[&[u8]]) -> Result<Option<List<i64>>, AllocError>
    ensures { IfOk result (λ r. MatchOption r
        ((ns : List ℤ) → AllByRecursion IsPrintedNumber ns → map (λ part. part.now) parts.now ≡ map spaced_number ns → ⊥)
        (λ ns. AllByRecursion IsPrintedNumber ns × (map (λ part. part.now) parts.now ≡ map spaced_number ns))) }
{
    let mut found = List::new(alloc);
    for part in parts {
        let Some(n) = number_behind(alloc, part)? else {
            return Ok(None)
        };
        found.push(n)?;
    }
    Ok(Some(found))
}

/// The names of these parts.
fn names_of(alloc: Global, parts: &[&[u8]]) -> Result<Option<List<Name>>, AllocError>
    ensures { IfOk result (λ r. MatchOption r
        ((names : List (List ℕ)) → AllByRecursion IsPrintedName names → map (λ part. part.now) parts.now ≡ map spaced_name names → ⊥)
        (λ names. AllByRecursion IsPrintedName names × (map (λ part. part.now) parts.now ≡ map spaced_name names))) }
{
    let mut found = List::new(alloc);
    for part in parts {
        let Some(name) = name_behind(alloc, part)? else {
            return Ok(None)
        };
        found.push(name)?;
    }
    Ok(Some(found))
}

/// A text behind a blank, so that each of its elements stands behind one.
fn spaced(alloc: Global, text: &[u8]) -> Result<Vec<u8>, AllocError>
    ensures { IfOk result (λ v. v.items ≡ 32 ∷ text.now) }
{
    let mut spaced = Vec::from_slice(alloc, b" ")?;
    spaced.extend_from_slice(text)?;
    Ok(spaced)
}

/// The numbers that a text spells, with a comma and a blank between them.
pub(crate) fn numbers(alloc: Global, text: &[u8]) -> Result<Option<List<i64>>, AllocError>
    ensures { IfOk result (λ r. MatchOption r
        ((ns : List ℤ) → AllByRecursion IsPrintedNumber ns → text.now ≡ joined (map signed_decimal ns) → ⊥)
        (λ ns. AllByRecursion IsPrintedNumber ns × (text.now ≡ joined (map signed_decimal ns)))) }
{
    if text.is_empty() {
        return Ok(Some(List::new(alloc)));
    }
    let spaced = spaced(alloc, text)?;
    let parts = parts(alloc, &spaced, b',')?;
    numbers_of(alloc, &parts)
}

/// The names that a text spells, with a comma and a blank between them.
pub(crate) fn names(alloc: Global, text: &[u8]) -> Result<Option<List<Name>>, AllocError>
    ensures { IfOk result (λ r. MatchOption r
        ((names : List (List ℕ)) → AllByRecursion IsPrintedName names → text.now ≡ joined (map quoted names) → ⊥)
        (λ names. AllByRecursion IsPrintedName names × (text.now ≡ joined (map quoted names)))) }
{
    if text.is_empty() {
        return Ok(Some(List::new(alloc)));
    }
    let spaced = spaced(alloc, text)?;
    let parts = parts(alloc, &spaced, b',')?;
    names_of(alloc, &parts)
}

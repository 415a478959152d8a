//! The line of an entry.
ghost use Rattle.std.specs.Prelude.{◌≡◌, ◌++◌, ◌==◌, ℕ, ℤ, List, not, IsTrue, IfOk, MatchOption, codes};
ghost use Rattle.std.specs.List.{prefix_len};
ghost use Rattle.std.specs.Fmt.{signed_decimal};
ghost use Rattle.rl_arrays.specs.Names as form;
ghost use Rattle.rl_arrays.specs.Section.{entry_line};
ghost use Rattle.rl_cread.specs.Contents.{IsPrintedNumber};
ghost use Rattle.rl_cread.specs.Elements.{entry_front, entry_text};

use crate::numbers::number;
use crate::texts::{behind, between};
use rl_arrays::is_name;
use rl_types::Name;
use std::alloc::{AllocError, Global};

/// What stands before an entry's name.
fn entry_front(alloc: Global, name: &[u8]) -> Result<Vec<u8>, AllocError>
    ensures { IfOk result (λ v. v.items ≡ entry_front name.now) }
{
    let mut front = Vec::from_slice(alloc, b"static const int ")?;
    front.extend_from_slice(name)?;
    front.extend_from_slice(b"_en_")?;
    Ok(front)
}

/// How many bytes stand before the first blank.
fn word_len(text: &[u8]) -> usize
    ensures { result ≡ prefix_len (λ b. not (b == 32)) text.now }
{
    text.iter().take_while(|b| **b != 32).count()
}

/// The number behind an entry's name.
fn state_in(alloc: Global, behind: &[u8]) -> Result<Option<i64>, AllocError>
    ensures { IfOk result (λ r. MatchOption r
        ((n : ℤ) → IsPrintedNumber n → behind.now ≡ codes " = " ++ (signed_decimal n ++ codes ";") → ⊥)
        (λ n. IsPrintedNumber n × (behind.now ≡ codes " = " ++ (signed_decimal n ++ codes ";")))) }
{
    match between(behind, b" = ", b";") {
        Some(text) => number(alloc, text),
        None => Ok(None),
    }
}

/// The entry that a text spells.
fn entry_of(alloc: Global, text: &[u8]) -> Result<Option<(Name, i64)>, AllocError>
    ensures { IfOk result (λ r. MatchOption r
        ((word : List ℕ) (n : ℤ) → IsTrue (form.is_name word) → IsPrintedNumber n → text.now ≡ entry_text word n → ⊥)
        (λ e. IsTrue (form.is_name e.0) × IsPrintedNumber e.1 × (text.now ≡ entry_text e.0 e.1))) }
{
    let (word, behind) = text.split_at(word_len(text));
    if !is_name(word) {
        return Ok(None);
    }
    match state_in(alloc, behind)? {
        Some(n) => Ok(Some((Name::new(Vec::from_slice(alloc, word)?), n))),
        None => Ok(None),
    }
}

/// The entry that a line says.
pub(crate) fn entry_in(
    alloc: Global,
    name: &[u8],
    line: &[u8],
) -> Result<Option<(Name, i64)>, AllocError>
    ensures { IfOk result (λ r. MatchOption r
        ((word : List ℕ) (n : ℤ) → IsTrue (form.is_name word) → IsPrintedNumber n → line.now ≡ entry_line name.now (word, n) → ⊥)
        (λ e. IsTrue (form.is_name e.0) × IsPrintedNumber e.1 × (line.now ≡ entry_line name.now e))) }
{
    let front = entry_front(alloc, name)?;
    match behind(line, front.as_slice()) {
        Some(text) => entry_of(alloc, text),
        None => Ok(None),
    }
}

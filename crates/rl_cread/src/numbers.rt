//! Numbers and names as they are printed.
ghost use Rattle.std.specs.Prelude.{◌≡◌, ◌++◌, ℕ, ℤ, List, IsTrue, IfOk, MatchOption};
ghost use Rattle.std.specs.Fmt.{signed_decimal};
ghost use Rattle.rl_cread.specs.Contents.{IsPrintedNumber};

use std::alloc::{AllocError, Global};

/// The number that a text spells, if it is the number's one form.
pub(crate) fn number(alloc: Global, text: &[u8]) -> Result<Option<i64>, AllocError>
    ensures { IfOk result (λ r. MatchOption r ((n : ℤ) → IsPrintedNumber n → text.now ≡ signed_decimal n → ⊥) (λ n. IsPrintedNumber n × (text.now ≡ signed_decimal n))) }
{
    let Ok(word) = std::str::from_utf8(text) else {
        return Ok(None)
    };
    let Ok(n) = word.parse::<i64>() else {
        return Ok(None)
    };
    let printed = format!(in alloc; "{n}")?;
    if printed.as_bytes() == text {
        Ok(Some(n))
    } else {
        Ok(None)
    }
}

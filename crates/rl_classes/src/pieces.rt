//! The keys of an alphabet, cut into ranges at which a function is constant.
ghost use Rattle.std.specs.Prelude.{◌≡◌, ◌++◌, ◌≤ℤ◌, ◌<ℤ◌, ℤ, pos, ◌+ℤ◌, ◌-ℤ◌, ◌^◌, neg_ℤ, IfOk, MatchResult};
ghost use Rattle.rl_types.specs.Alphabet.{least_key, greatest_key};
ghost use Rattle.rl_classes.specs.Steps.{Ascend, froms};
ghost use Rattle.rl_classes.specs.Pieces.{piece_up_to, CutsInto};

use crate::steps::{Steps, push};
use rl_types::{Alphabet, KeyRange, Memory};
use std::alloc::Global;

/// A range of keys with a number.
#[derive(Clone, Copy, Debug)]
pub(crate) struct Piece {
    pub range: KeyRange,
    pub number: u32,
}

/// The least key of an alphabet.
fn least(alphabet: Alphabet) -> i64
    ensures { result ≡ least_key alphabet }
{
    alphabet.least_key()
}

/// The first key behind those of an alphabet.
fn behind(alphabet: Alphabet) -> i64
    ensures { result ≡ greatest_key alphabet +ℤ pos 1 }
{
    match alphabet {
        Alphabet::Char => 128,
        Alphabet::UnsignedChar => 256,
        Alphabet::Short => 32_768,
        Alphabet::UnsignedShort => 65_536,
        Alphabet::Int => 2_147_483_648,
        Alphabet::UnsignedInt => 4_294_967_296,
    }
}

/// Puts the piece from one key up to another at the end, if any key is between.
fn push_up_to(pieces: &mut Vec<Piece>, lo: i64, end: i64, number: u32) -> Result<(), Memory>
    ensures { IfOk result (λ _. pieces.new.items ≡ pieces.old.items ++ piece_up_to lo end number) }
{
    if end <= lo {
        return Ok(());
    }
    match KeyRange::new(lo, end - 1) {
        Some(range) => {
            push(pieces, Piece { range, number })?;
            Ok(())
        }
        None => Ok(()),
    }
}

/// The ranges of the alphabet's keys at which a function is constant, ascending.
pub(crate) fn pieces(
    alloc: Global,
    f: &Steps<u32>,
    alphabet: Alphabet,
) -> Result<Vec<Piece>, Memory>
    requires { Ascend (froms f.now.later.items) }
    ensures { IfOk result (λ v. CutsInto f.now alphabet v.items) }
{
    let behind = behind(alphabet);
    let mut pieces = Vec::new(alloc);
    let mut lo = least(alphabet);
    let mut number = f.first;
    for step in &f.later {
        let end = step.from.min(behind).max(lo);
        push_up_to(&mut pieces, lo, end, number)?;
        lo = end;
        number = step.value;
    }
    push_up_to(&mut pieces, lo, behind, number)?;
    Ok(pieces)
}

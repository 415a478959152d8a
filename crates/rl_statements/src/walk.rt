// The walk over a code.
ghost use Rattle.std.specs.Prelude.{◌≡◌, ◌+◌, ◌<◌, ◌^◌, true, length, option_map, IfOk};
ghost use Rattle.rl_lexical.specs.declared.mode.Mode.TheVariants as m;
ghost use Rattle.rl_code.specs.Texts.{first_word, behind_word};
ghost use Rattle.rl_code.specs.Forms as forms;
ghost use Rattle.rl_code.specs.Sayings as sayings;
ghost use Rattle.rl_bytes.specs.Modes.{is_of_code, depth_of};

use crate::control::saying_of;
use crate::memory::put;
use rl_bytes::{braces, code_word, cut_word, in_word, is_outside, mode_behind};
use rl_code::Said;
use rl_lexical::Mode;
use rl_types::Memory;
use std::alloc::Global;

/// What is said where a word begins, inside so many braces and behind so many bytes.
fn said_here(alloc: Global, from: usize, depth: u64, text: &[u8]) -> Result<Option<Said>, Memory>
    requires { depth + length text.now < 2 ^ 63 }
    ensures { IfOk result (λ said. said ≡ option_map (λ w. record { from = from; saying = forms.saying_of w depth (behind_word text.now) }) (forms.code_word (first_word text.now))) }
{
    let (word, behind) = cut_word(text);
    match code_word(word) {
        Some(w) => {
            let saying = saying_of(alloc, w, depth, behind)?;
            Ok(Some(Said { from, saying }))
        }
        None => Ok(None),
    }
}

/// What is said here. A word begins where no letter, digit or `_` is before it.
fn said_at(
    alloc: Global,
    from: usize,
    fresh: bool,
    mode: Mode,
    text: &[u8],
) -> Result<Option<Said>, Memory>
    requires { depth_of mode + length text.now < 2 ^ 63 }
    ensures { IfOk result (λ said. said ≡ sayings.said_at from fresh mode text.now) }
{
    if fresh && is_outside(mode) {
        said_here(alloc, from, braces(mode), text)
    } else {
        Ok(None)
    }
}

/// All that is said behind the brace of a code.
#[tactic(auto, using(crate::proofs::WalkLaws::put_behind), unfolding(rl_code::specs::Sayings::sayings_from))]
fn said_behind(alloc: Global, text: &[u8]) -> Result<Vec<Said>, Memory>
    ensures { IfOk result (λ said. said.items ≡ sayings.sayings_from 1 true (m.Code 0) text.now) }
{
    let mut found = Vec::new(alloc);
    let mut mode = Mode::Code(0);
    let mut fresh = true;
    for at in 0..text.len() {
        let said = said_at(alloc, at + 1, fresh, mode, &text[at..])?;
        put(&mut found, said)?;
        fresh = !in_word(text[at]);
        mode = mode_behind(mode, text[at]);
    }
    Ok(found)
}

/// All that a code says, in text order: its control statements, its values, and the words that stand where they may not. An `Err` is want of memory.
#[tactic(auto, unfolding(rl_code::specs::Sayings::sayings_from))]
pub fn read_code(alloc: Global, code: &[u8]) -> Result<Vec<Said>, Memory>
    ensures { IfOk result (λ said. said.items ≡ sayings.sayings code.now) }
{
    match code {
        [] => Ok(Vec::new(alloc)),
        [_, rest @ ..] => said_behind(alloc, rest),
    }
}

// Names, and the texts of statements.
ghost use Rattle.std.specs.Prelude.{◌≡◌, ◌+◌, ◌<◌, ◌≤◌, ◌^◌, length, IfSome, MatchOption, None, Some};
ghost use Rattle.rl_lexical.specs.declared.mode.Mode.TheVariants as m;
ghost use Rattle.rl_code.specs.Texts as texts;
ghost use Rattle.rl_statements.specs.Lengths.{statement_len};

use rl_arrays::is_name;
use rl_bytes::{are_blanks, behind_blanks, cut_word, is_left, is_outside, mode_behind};
use rl_lexical::Mode;

#[tactic(auto, unfolding(crate::specs::Lengths::statement_len))]
/// How many bytes stand before the `;` that ends a statement inside so many braces, unless a brace around it ends before.
fn statement_len(depth: u64, text: &[u8]) -> Option<usize>
    requires { depth + length text.now < 2 ^ 63 }
    ensures value { result ≡ statement_len depth 0 (m.Code depth) text.now }
    ensures bound { IfSome result (λ n. n ≤ length text.now) }
{
    let mut mode = Mode::Code(depth);
    for len in 0..text.len() {
        if is_outside(mode) && text[len] == b';' {
            return Some(len);
        }
        mode = mode_behind(mode, text[len]);
        if is_left(depth, mode) {
            return None;
        }
    }
    None
}

#[tactic(auto, using(crate::proofs::CutLaws::cut_at, crate::proofs::CutLaws::no_cut))]
/// The text of a statement inside so many braces, up to its `;`.
pub fn up_to_semicolon(depth: u64, text: &[u8]) -> Option<&[u8]>
    requires { depth + length text.now < 2 ^ 63 }
    ensures { MatchOption result (texts.up_to_semicolon depth (m.Code depth) text.now ≡ None) (λ front. texts.up_to_semicolon depth (m.Code depth) text.now ≡ Some front.now) }
{
    match statement_len(depth, text) {
        Some(len) => Some(&text[..len]),
        None => None,
    }
}

/// The name that is all of a text but blanks.
pub fn only_name(text: &[u8]) -> Option<&[u8]>
    ensures { MatchOption result (texts.only_name text.now ≡ None) (λ name. texts.only_name text.now ≡ Some name.now) }
{
    let (word, behind) = cut_word(behind_blanks(text));
    if is_name(word) && are_blanks(behind) {
        Some(word)
    } else {
        None
    }
}

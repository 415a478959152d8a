// Whether code is a block of C.
ghost use Rattle.std.specs.Prelude.{◌≡◌, ◌↔◌, IsTrue};
ghost use Rattle.rl_lexical.specs.declared.mode.Mode.TheVariants as m;
ghost use Rattle.rl_lexical.specs.Modes.{mode_after};
ghost use Rattle.rl_code.specs.Reading.{IsBlock};

use rl_bytes::mode_behind;
use rl_lexical::Mode;

#[tactic(auto, unfolding(rl_lexical::specs::Modes::mode_after))]
/// How far code is read behind this, which stands behind its first brace.
fn mode_after(text: &[u8]) -> Mode
    ensures { result ≡ mode_after (m.Code 0) text.now }
{
    let mut mode = Mode::Code(0);
    for at in 0..text.len() {
        mode = mode_behind(mode, text[at]);
    }
    mode
}

/// Whether the code is a block of C: it begins with a brace and ends with the brace that matches it.
pub fn is_block(code: &[u8]) -> bool
    ensures { IsTrue result ↔ IsBlock code.now }
{
    match code {
        [] => false,
        [first, rest @ ..] => *first == b'{' && matches!(mode_after(rest), Mode::Complete),
    }
}

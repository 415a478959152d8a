// The first words of a code that may not stand there.
ghost use Rattle.std.specs.Prelude.{◌≡◌};
ghost use Rattle.rl_code.specs.Reading as reading;
ghost use Rattle.rl_statements.specs.Outer as outer;

use crate::said::{ends, is_misplaced, is_outer};
use rl_code::Said;

/// How many bytes stand before the first word that is left out in this profile or has not its form.
pub fn first_misplaced(said: &[Said]) -> Option<usize>
    ensures { result ≡ reading.first_misplaced said.now }
{
    for s in said {
        if is_misplaced(s) {
            return Some(s.from);
        }
    }
    None
}

/// How many bytes stand before the word at which the fifth is seen behind so many at the outer level.
fn fifth_behind(said: &[Said]) -> Option<usize>
    ensures { result ≡ outer.fifth_behind 0 said.now }
{
    let mut seen: u32 = 0;
    for s in said {
        if is_outer(s) {
            if seen == 4 {
                return Some(s.from);
            }
            if ends(s) {
                return None;
            }
            seen += 1;
        }
    }
    None
}

/// How many bytes stand before the fifth statement at the outer level, where no transfer or break is among those before it.
#[tactic(auto, using(crate::proofs::OuterLaws::fifth_is))]
pub fn fifth_outer(said: &[Said]) -> Option<usize>
    ensures { result ≡ reading.fifth_outer said.now }
{
    fifth_behind(said)
}

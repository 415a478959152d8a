// The goals of execs.
ghost use Rattle.std.specs.Prelude.{◌≡◌, MatchOption, None, Some};
ghost use Rattle.rl_code.specs.Forms as forms;

use crate::number::{added, taken};
use rl_bytes::{are_blanks, behind_blanks, cut_word};
use rl_run::GoalBase;

/// The goal of an exec.
#[derive(Clone, Copy, Debug)]
pub struct Goal {
    /// What it counts from.
    pub base: GoalBase,
    /// What is added to that, in characters.
    pub offset: i64,
}

fn base_named(word: &[u8]) -> Option<GoalBase>
    ensures { result ≡ forms.base_named word.now }
{
    if word == b"p".as_slice() {
        Some(GoalBase::P)
    } else if word == b"ts".as_slice() {
        Some(GoalBase::Ts)
    } else if word == b"te".as_slice() {
        Some(GoalBase::Te)
    } else {
        None
    }
}

/// What is added: nothing, or a sign and a number.
fn offset_in(text: &[u8]) -> Option<i64>
    ensures { result ≡ forms.offset_in text.now }
{
    match text {
        [] => Some(0),
        [first, rest @ ..] => {
            if *first == b'+' {
                added(rest)
            } else if *first == b'-' {
                taken(rest)
            } else {
                None
            }
        }
    }
}

/// `p`, `ts` or `te`, and what is added.
fn read_goal(text: &[u8]) -> Option<Goal>
    ensures { MatchOption result (forms.read_goal text.now ≡ None) (λ g. forms.read_goal text.now ≡ Some (record { base = g.base; offset = g.offset })) }
{
    let (word, behind) = cut_word(text);
    match base_named(word) {
        Some(base) => match offset_in(behind_blanks(behind)) {
            Some(offset) => Some(Goal { base, offset }),
            None => None,
        },
        None => None,
    }
}

/// The goal that a text is; blanks are none.
pub fn goal_in(text: &[u8]) -> Option<Goal>
    ensures { MatchOption result (forms.goal_in text.now ≡ None) (λ g. forms.goal_in text.now ≡ Some (record { base = g.base; offset = g.offset })) }
{
    if are_blanks(text) {
        return None;
    }
    match read_goal(behind_blanks(text)) {
        Some(goal) => Some(goal),
        None => Some(Goal {
            base: GoalBase::Unread,
            offset: 0,
        }),
    }
}

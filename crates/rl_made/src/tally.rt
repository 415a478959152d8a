// The tally of a run's tokens.
ghost use Rattle.std.specs.Prelude.{◌≡◌, ◌+◌, ℕ};
ghost use Rattle.rl_made.specs.Made as made;
ghost use Rattle.rl_made.specs.Tally.{Counts, Tells, token_in};

use rl_log::Names;
use rl_replay::answer_by_itself;
use rl_run::{Answer, Call, CallKind};

// The tokens so far; None where they are too many for 64 bits.
#[derive(Drop)]
pub struct Tally<'a> {
    pub names: Names<'a>,
    pub tokens: Option<u64>,
}

fn is_token(kind: CallKind) -> bool
    ensures { result ≡ made.is_token kind }
{
    matches!(kind, CallKind::Token)
}

fn one_more(tokens: Option<u64>) -> Option<u64>
    ensures { (n : ℕ) → Counts tokens n → Counts result (n + 1) }
{
    match tokens {
        Some(count) => count.checked_add(1),
        None => None,
    }
}

// The tokens behind a call.
fn tokens_behind(tokens: Option<u64>, kind: CallKind) -> Option<u64>
    ensures { (n : ℕ) → Counts tokens n → Counts result (n + token_in kind) }
{
    if is_token(kind) {
        one_more(tokens)
    } else {
        tokens
    }
}

// Answers a call as one without a line, and counts it where it delivers a token.
pub fn answer(tally: &mut Tally<'_>, call: &Call) -> Answer
    ensures { Tells tally.old call.now result tally.new }
{
    tally.tokens = tokens_behind(tally.tokens, call.kind);
    answer_by_itself(&tally.names, call)
}

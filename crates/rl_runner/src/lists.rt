// Lists of calls.
ghost use Rattle.std.specs.Prelude.{◌≡◌, ◌<◌, ◌≤◌, ◌^◌, ℕ, length, map, All, [], ◌∷◌, Some, None, MatchOption, IfSome};
ghost use Rattle.rl_run.specs.Picks.{came};
ghost use Rattle.rl_run.specs.Play.{Plays};
ghost use Rattle.rl_run.specs.Turn.{calls, call_of};
ghost use Rattle.rl_runner.specs.Sessions.{session_of, IsSound};
ghost use Rattle.rl_arrays.specs.TableMachine.{machine};
ghost use Rattle.rl_arrays.specs.Words.{natural};
ghost use Rattle.rl_tables.specs.Steps.{IsId};

use crate::State;
use crate::picks::answered;
use rl_run::{Answer, Call, CallKind, Flow, Settings, Spot};
use rl_tables::Tables;
use rl_types::ActionId;

// The first action of a list, and the others.
fn first_action(list: &[i64]) -> Option<(ActionId, &[i64])>
    requires { All IsId list.now }
    ensures value { MatchOption result (map natural list.now ≡ []) (λ first. map natural list.now ≡ first.0.0 ∷ map natural first.1.now) }
    ensures actions { IfSome result (λ first. All IsId first.1.now) }
    ensures shorter { IfSome result (λ first. length first.1.now < length list.now) }
{
    match list.split_first() {
        Some((number, others)) => Some((ActionId(*number as u32), others)),
        None => None,
    }
}

/// The call of an action, or of a condition, that is made now.
pub fn make_call(tables: &Tables, spot: &Spot, kind: CallKind, action: ActionId, s: &State) -> Call
    ensures { result ≡ call_of spot.now kind action.0 (session_of (machine tables.now) s.now) }
{
    Call {
        kind,
        action,
        at: spot.at,
        next: s.next,
        key: spot.key,
        ts: s.ts,
        te: s.te,
    }
}

// A list is called: each action once, up to the first answer that ends it.
#[tactic(auto, unfolding(rl_run::specs::Turn::if_goes))]
pub fn call_list<H: FnMut(Call) -> Answer>(
    tables: &Tables,
    settings: &Settings,
    spot: &Spot,
    kind: CallKind,
    list: &[i64],
    s: &mut State,
    host: &mut H,
) -> Flow
    requires sound { IsSound tables.now settings.now s.old }
    requires actions { All IsId list.now }
    requires callable { H.IsAlwaysCallable host.old }
    ensures plays { Plays H.step host.old
        (calls (machine tables.now) settings.now spot.now kind (map natural list.now) (session_of (machine tables.now) s.old))
        host.new (came result (session_of (machine tables.now) s.new)) }
    ensures sound { IsSound tables.now settings.now s.new }
    ensures callable { H.IsAlwaysCallable host.new }
{
    let mut rest = list;
    while let Some((action, others)) = first_action(rest) {
        let call = make_call(tables, spot, kind, action, s);
        let answer = host(call);
        match answered(tables, settings, spot, kind, action, s, answer) {
            Flow::Goes => {}
            flow => return flow,
        }
        rest = others;
    }
    Flow::Goes
}

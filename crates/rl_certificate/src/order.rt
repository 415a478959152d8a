// Whether states and pairs stand in their order.
ghost use Rattle.std.specs.Prelude.{◌≡◌, ◌↔◌, ◌≤◌, ◌<◌, ◌+◌, ◌∷◌, IsTrue, map};
ghost use Rattle.rl_certificate.specs.declared.certificate.Access.{Access};
ghost use Rattle.rl_certificate.specs.declared.certificate.Apart.{Apart};
ghost use Rattle.rl_certificate.specs.Certificates.{states_of, pairs_of};
ghost use Rattle.rl_certificate.specs.Orders.{pairs_from};

use crate::certificate::{Access, Apart};

// Whether these are the words of all states but Error, ascending.
pub(crate) fn are_states(access: &[Access], states: u32) -> bool
    requires { 2 ≤ states }
    ensures { IsTrue result ↔ (map (λ (a : Access). a.state) access.now ≡ states_of states) }
{
    let mut state = 1;
    for a in access {
        if state >= states || a.state != state {
            return false;
        }
        state += 1;
    }
    state == states
}

// A pair of states.
#[derive(Clone, Copy, Debug)]
pub(crate) struct Pair {
    pub(crate) low: u32,
    pub(crate) high: u32,
}

// The pair behind this one.
fn next_pair(pair: Pair, states: u32) -> Pair
    requires ordered { pair.low < pair.high }
    requires there { pair.high < states }
    requires few { states ≤ 2147483647 }
    ensures behind { pairs_from states pair.low pair.high ≡ (pair.low, pair.high) ∷ pairs_from states result.low result.high }
    ensures ordered { result.low < result.high }
    ensures next { states ≤ result.high → result.high ≡ result.low + 1 }
{
    if pair.high + 1 < states {
        Pair {
            low: pair.low,
            high: pair.high + 1,
        }
    } else {
        Pair {
            low: pair.low + 1,
            high: pair.low + 2,
        }
    }
}

// Whether these are the words of all pairs of states but Error, ascending.
pub(crate) fn are_pairs(apart: &[Apart], states: u32) -> bool
    requires some { 2 ≤ states }
    requires few { states ≤ 2147483647 }
    ensures { IsTrue result ↔ (map (λ (p : Apart). (p.low, p.high)) apart.now ≡ pairs_of states) }
{
    let mut pair = Pair { low: 1, high: 2 };
    for p in apart {
        if pair.high >= states || p.low != pair.low || p.high != pair.high {
            return false;
        }
        pair = next_pair(pair, states);
    }
    pair.high >= states
}

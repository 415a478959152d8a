// Where the session of a name is.
ghost use Rattle.std.specs.Prelude.{◌≡◌, ◌<◌, ◌+◌, map, not, count_by, length, position, true, false, Some, None, MatchOption, vec_len, vec_capacity, [], ◌∷◌, ◌++◌};
ghost use Rattle.rl_sessions.specs.declared.one.One.{One};
ghost use Rattle.rl_sessions.specs.OneSession.{session_value, name_of, is_live, has_name, IsLivePlace};
ghost use Rattle.rl_sessions.specs.Roll.{names_on};
ghost use Rattle.rl_sessions.specs.SessionsValue.{HasNoLive, refusal};

use crate::SessionFault;
use crate::one::One;
use crate::roll::{Roll, place_on};

// The place of the session of a name.
pub(crate) fn place_of(names: &Roll, all: &[One], name: &[u8]) -> Option<usize>
    requires { names_on names.now ≡ map name_of all.now }
    ensures { result ≡ position (has_name name.now) all.now }
{
    let _ = all.len();
    place_on(names, name)
}

// The place of the session of a name, where it was not ended.
pub(crate) fn live_place_of(names: &Roll, all: &[One], name: &[u8]) -> Option<usize>
    requires { names_on names.now ≡ map name_of all.now }
    ensures { MatchOption result (HasNoLive name.now (map session_value all.now)) (λ i. IsLivePlace name.now all.now i) }
{
    match place_of(names, all, name) {
        None => None,
        Some(place) if all[place].is_closed => None,
        Some(place) => Some(place),
    }
}

// Why no session of a name can be started, where so many were not ended.
pub(crate) fn refusal_of(
    names: &Roll,
    all: &[One],
    live: usize,
    name: &[u8],
) -> Option<SessionFault>
    requires names { names_on names.now ≡ map name_of all.now }
    requires live { live ≡ count_by is_live all.now }
    ensures refused { result ≡ refusal name.now (map session_value all.now) }
    ensures absent { result ≡ None → position (has_name name.now) all.now ≡ None }
    ensures room { result ≡ None → live < 1024 }
{
    match place_of(names, all, name) {
        Some(_) => Some(SessionFault::Twice),
        None if live >= 1024 => Some(SessionFault::Full),
        None => None,
    }
}

// Puts a session behind all others, where there is room for one.
pub(crate) fn push_one<'a>(all: &mut Vec<One<'a>>, one: One<'a>)
    requires { vec_len all.old < vec_capacity all.old }
    ensures { all.new.items ≡ all.old.items ++ one.entry ∷ [] }
{
    match all.push(one) {
        Ok(()) => {}
        Err(_) => unreachable!(),
    }
}

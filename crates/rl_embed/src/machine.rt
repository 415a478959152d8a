// Machines whose states say something else and whose edges stay.
ghost use Rattle.std.specs.Prelude.{◌≡◌, ◌<◌, ◌↔◌, Some, length, slice_get};
ghost use Rattle.rl_automata.specs.Auto.{is_start};
ghost use Rattle.rl_fsm.specs.Graphs.{fsm_auto, state_at};
ghost use Rattle.rl_fsm.specs.Sound.{IsSound};

use rl_fsm::{Fsm, State};

// Whether the state is the start.
pub fn is_start(m: &Fsm, state: u32) -> bool
    ensures { result ≡ is_start (fsm_auto m.now) state }
{
    state == m.start()
}

// The state of this number.
pub fn state_of(m: &Fsm, number: u32) -> &State
    requires { number < length m.now.states }
    ensures { state_at m.now number ≡ Some result.now }
{
    match m.state(number) {
        Some(state) => state,
        None => unreachable!(),
    }
}

// The machine with these states in place of its own.
pub fn with_states(m: &Fsm, states: Vec<State>) -> Fsm
    requires { IsSound (record { start = m.now.start; states = states.items }) }
    ensures { result ≡ record { start = m.now.start; states = states.items } }
{
    match Fsm::new(m.start(), states) {
        Some(machine) => machine,
        None => unreachable!(),
    }
}

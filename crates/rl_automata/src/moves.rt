// Steps of an automaton.
use rl_labels::Carry;

/// Where a step leads, and the actions and priorities that it carries.
#[derive(Debug, Drop)]
pub struct Move<S> {
    pub to: S,
    pub carry: Carry,
}

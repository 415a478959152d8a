// States that are made of configurations.
use crate::row::Row;
use rl_fsm::{Marks, State};
use rl_labels::Carry;

// What is told of a configuration.
#[derive(Drop)]
pub struct Told<S> {
    pub row: Row<S>,
    pub fin: bool,
    pub out: Carry,
    pub marks: Marks,
}

// A state, and whether the candidates for a step from it are a cycle at some letter.
#[derive(Drop)]
pub struct Made {
    pub state: State,
    pub cycle: bool,
}

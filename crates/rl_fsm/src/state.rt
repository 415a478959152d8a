// States.
use crate::edge::Edge;
use rl_labels::{Priors, Stamped};
use rl_types::List;

/// What a final state puts on the steps that leave it by a concatenation or a repetition (the guide's section 3.1):
/// its leaving actions and priorities.
#[derive(Debug, Drop)]
pub struct Out {
    pub actions: Stamped,
    pub priors: Priors,
}

/// The actions that stay with a state, by when they are called (the guide's section 3.2).
#[derive(Debug, Drop)]
pub struct Marks {
    pub to: Stamped,
    pub from: Stamped,
    pub eof: Stamped,
    pub error: Stamped,
}

/// A state: whether it is final, what it puts on the steps that leave it, the actions that stay with it, and its
/// edges.
#[derive(Debug, Drop)]
pub struct State {
    pub fin: bool,
    pub out: Out,
    pub marks: Marks,
    pub edges: List<Edge>,
}

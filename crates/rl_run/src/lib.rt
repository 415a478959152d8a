//! What a run of a session is: calls and answers, picks, turns, the end of input; definitions and laws over any
//! machine that has the look-ups.
#![tactic(auto)]

mod calls;
mod laws;
mod sessions;
mod statements;

pub use calls::{Answer, Call, CallKind, Outcome, Pick, Stop, Verdict};
pub use laws::{
    classes_are_twins, runs_are_continued, turns_descend, twins_compose, twins_make_same_runs,
};
pub use sessions::{Flow, Heard, Settings, Spot};
pub use statements::{GoalBase, Statement, StatementKind};

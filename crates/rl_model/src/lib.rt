//! A machine's specification, and the tree machine: the machine that its expressions themselves are.
#![tactic(auto)]

mod laws;
mod rows;
mod spec;

pub use laws::{
    followers_run_as_trees, honest_tests_agree, trees_keep_their_homes,
    well_formed_trees_keep_rules,
};
pub use rl_automata::{Class, Kind, Label, Tree};
pub use rl_run::{
    Answer, Call, CallKind, GoalBase, Outcome, Pick, Settings, Statement, StatementKind, Stop,
    Verdict,
};
pub use rows::{
    actions_run_in_order, calls_return, conditions_are_asked, operands_step_together,
    priorities_decide, state_actions_run, tokens_are_longest,
};
pub use spec::{ActionDef, Entry, Frame, Pattern, Root, Spec, Write, WriteKind};

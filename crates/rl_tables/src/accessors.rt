//! What a run asks of tables.
ghost use Rattle.std.specs.Prelude.{◌≡◌, ◌<◌, ◌≤◌, ◌^◌, ℕ, pos, length, map, All, IfSome};
ghost use Rattle.rl_types.specs.Alphabet.{width_of, key_of};
ghost use Rattle.rl_arrays.specs.Words.{natural, number_at};
ghost use Rattle.rl_arrays.specs.Lists.{IsList, members};
ghost use Rattle.rl_arrays.specs.Sizes.{states};
ghost use Rattle.rl_arrays.specs.Valid.{Valid};
ghost use Rattle.rl_arrays.specs.TableMachine.{letters, machine, step_of};
ghost use Rattle.rl_tables.specs.Steps.{go_by, IsStep, IsEntryNumber, IsId};

use crate::look_ups::{alphabet_of, cell_of, count_at, entry_of, members_at};
use crate::statement_of::statement;
use crate::{Step, Tables};
use rl_arrays::Arrays;
use rl_labels::Truths;
use rl_run::Statement;
use rl_types::{ActionId, Alphabet, EntryId, Key};

/// The list at a place.
fn list_at(a: &Arrays, place: usize) -> &[i64]
    requires valid { Valid a.now }
    requires list { IsList a.now.actions (pos place) }
    ensures value { map natural result.now ≡ members a.now.actions place }
    ensures actions { All IsId result.now }
{
    members_at(a.actions.as_slice(), place)
}

/// The step of an entry.
fn step_at(a: &Arrays, entry: usize) -> Step
    requires valid { Valid a.now }
    requires within { entry < length a.now.trans_targs }
    ensures step { step_of a.now entry ≡ go_by a.now result }
    ensures exists { IsStep a.now result }
{
    let target = count_at(a.trans_targs.as_slice(), entry);
    if target == 0 {
        Step::Stay
    } else {
        Step::Go {
            target: target as u32,
            list: count_at(a.trans_lists.as_slice(), entry) as u64,
        }
    }
}

#[tactic(auto, unfolding(rl_arrays::specs::TableMachine::machine))]
impl Tables {
    ghost use Rattle.rl_run.specs.Fine.{IsKinded};

    /// The number of Error. A number that no entry has, as 0, leads there.
    pub fn error_state(&self) -> u32
        ensures value { result ≡ (machine self.now).failed }
        ensures exists { result < states self.now }
        ensures no_entry { (machine self.now).entry 0 ≡ result }
    {
        let _ = self.arrays();
        0
    }

    /// Whether a state is Error.
    pub fn is_error(&self, state: u32) -> bool
        ensures { result ≡ (machine self.now).is_failed state }
    {
        state == 0
    }

    /// The list of from-state actions of a state.
    pub fn from_list(&self, state: u32) -> &[i64]
        requires { state < states self.now }
        ensures value { map natural result.now ≡ (machine self.now).from state }
        ensures actions { All IsId result.now }
    {
        let a = self.arrays();
        list_at(a, count_at(a.from_lists.as_slice(), state as usize))
    }

    /// The list of to-state actions of a state.
    pub fn to_list(&self, state: u32) -> &[i64]
        requires { state < states self.now }
        ensures value { map natural result.now ≡ (machine self.now).to state }
        ensures actions { All IsId result.now }
    {
        let a = self.arrays();
        list_at(a, count_at(a.to_lists.as_slice(), state as usize))
    }

    /// The end-of-file list of a state.
    pub fn eof_list(&self, state: u32) -> &[i64]
        requires { state < states self.now }
        ensures value { map natural result.now ≡ (machine self.now).eof state }
        ensures actions { All IsId result.now }
    {
        let a = self.arrays();
        list_at(a, count_at(a.eof_lists.as_slice(), state as usize))
    }

    /// The error list of a state.
    pub fn error_list(&self, state: u32) -> &[i64]
        requires { state < states self.now }
        ensures value { map natural result.now ≡ (machine self.now).error state }
        ensures actions { All IsId result.now }
    {
        let a = self.arrays();
        list_at(a, count_at(a.error_lists.as_slice(), state as usize))
    }

    /// The token's list of a state.
    pub fn token_list(&self, state: u32) -> &[i64]
        requires { state < states self.now }
        ensures value { map natural result.now ≡ (machine self.now).token state }
        ensures actions { All IsId result.now }
    {
        let a = self.arrays();
        list_at(a, count_at(a.accept_lists.as_slice(), state as usize))
    }

    /// The kind of a state: 0 plain, 1 a scanner's start, 2 inside a scanner and not final, 3 inside and final, 4 final
    /// with no step (this profile).
    pub fn kind(&self, state: u32) -> u8
        requires { state < states self.now }
        ensures { result ≡ (machine self.now).kind state }
    {
        count_at(self.arrays().state_kinds.as_slice(), state as usize) as u8
    }

    /// The start of the scanner that a state is in; Error for a plain state.
    pub fn home(&self, state: u32) -> u32
        requires { state < states self.now }
        ensures value { result ≡ (machine self.now).home state }
        ensures exists { result < states self.now }
    {
        count_at(self.arrays().homes.as_slice(), state as usize) as u32
    }

    /// Whether a state is final.
    pub fn is_final(&self, state: u32) -> bool
        ensures { result ≡ (machine self.now).final state }
    {
        self.arrays().first_final <= i64::from(state)
    }

    /// The state where an entry starts. The machine keeps the rules on kinds.
    pub fn entry_state(&self, entry: EntryId) -> u32
        requires { IsEntryNumber self.now entry.0 }
        ensures value { result ≡ (machine self.now).entry entry.0 }
        ensures exists { result < states self.now }
        ensures kinded { IsKinded (machine self.now) }
    {
        count_at(self.arrays().entry_states.as_slice(), entry.0 as usize) as u32
    }

    /// The alphabet, which says how many bytes a character has and which key.
    pub fn alphabet(&self) -> Alphabet
        ensures alphabet { result ≡ letters self.now }
        ensures width { (machine self.now).width ≡ width_of result }
        ensures keys { (machine self.now).key_of ≡ key_of result }
    {
        alphabet_of(self.arrays().alphabet).unwrap_or(Alphabet::Char)
    }

    /// The conditions that are asked at a key in a state. It takes no memory.
    pub fn asks(&self, state: u32, key: Key) -> Truths
        requires { state < states self.now }
        ensures { result.0 ≡ (machine self.now).asked state key }
    {
        let a = self.arrays();
        match cell_of(a, state as usize, key) {
            Some(cell) => Truths(count_at(a.cell_asks.as_slice(), cell) as u8),
            None => Truths(0),
        }
    }

    /// The step of a state at a key where exactly these conditions hold. It takes no memory.
    pub fn find(&self, state: u32, key: Key, truths: Truths) -> Step
        requires { state < states self.now }
        ensures step { (machine self.now).find state key truths.0 ≡ go_by self.now result }
        ensures exists { IsStep self.now result }
    {
        let a = self.arrays();
        match entry_of(a, state as usize, key, truths.0 as usize) {
            Some(entry) => step_at(a, entry),
            None => Step::Stay,
        }
    }

    /// The actions of the list with this number.
    pub fn list(&self, number: u64) -> &[i64]
        requires { IsList self.now.actions (pos number) }
        ensures value { map natural result.now ≡ members self.now.actions number }
        ensures actions { All IsId result.now }
    {
        list_at(self.arrays(), number as usize)
    }

    /// The control statement of an action with this number, from 1. None exactly where there is no such action or it has
    /// no such statement.
    pub fn statement(&self, action: ActionId, number: u32) -> Option<Statement>
        ensures value { result ≡ (machine self.now).statement action.0 number }
        ensures named { IfSome result (λ s. IfSome s.entry (λ e. IsEntryNumber self.now e.0)) }
    {
        statement(self.arrays(), action.0 as usize, number as usize)
    }
}

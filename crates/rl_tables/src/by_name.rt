//! The names of tables.
ghost use Rattle.std.specs.Prelude.{◌≡◌, ◌≢◌, ◌<◌, ◌≤◌, ℕ, Some, IfSome, IfNone, slice_get, length};
ghost use Rattle.rl_arrays.specs.TableMachine.{machine};
ghost use Rattle.rl_arrays.specs.Rules.{start_entry};
ghost use Rattle.rl_tables.specs.Steps.{IsEntryNumber};

use crate::Tables;
use crate::entries::start_entry_of;
use crate::names::is_at;
use rl_types::{ActionId, CondId, EntryId, List, Name};

/// The place of a name among these, from 1 on.
fn place_of(names: &List<Name>, name: &[u8]) -> Option<usize>
    ensures found { IfSome result (λ i. slice_get names.now i ≡ Some name.now) }
    ensures within { IfSome result (λ i. (1 ≤ i) × (i < length names.now)) }
    ensures none { IfNone result ((k : ℕ) → 1 ≤ k → slice_get names.now k ≢ Some name.now) }
{
    for k in 1..names.len() {
        if is_at(names, k, name) {
            return Some(k);
        }
    }
    None
}

#[tactic(auto, unfolding(rl_arrays::specs::TableMachine::machine))]
impl Tables {
    /// The name of an action.
    pub fn action_name(&self, action: ActionId) -> &[u8]
        requires { action.0 < length self.now.action_names }
        ensures { result.now ≡ (machine self.now).action_name action.0 }
    {
        self.arrays().action_names.as_slice()[action.0 as usize].bytes()
    }

    /// The name of a condition.
    pub fn condition_name(&self, condition: CondId) -> &[u8]
        requires { condition.0 < length self.now.cond_names }
        ensures { result.now ≡ (machine self.now).condition_name condition.0 }
    {
        self.arrays().cond_names.as_slice()[condition.0 as usize].bytes()
    }

    /// The name of an entry.
    pub fn entry_name(&self, entry: EntryId) -> &[u8]
        requires { entry.0 < length self.now.entry_names }
        ensures { result.now ≡ (machine self.now).entry_name entry.0 }
    {
        self.arrays().entry_names.as_slice()[entry.0 as usize].bytes()
    }

    /// The entry with this name. None exactly where no entry has it.
    pub fn entry_named(&self, name: &[u8]) -> Option<EntryId>
        ensures found { IfSome result (λ e. slice_get self.now.entry_names e.0 ≡ Some name.now) }
        ensures exists { IfSome result (λ e. IsEntryNumber self.now e.0) }
        ensures none { IfNone result ((k : ℕ) → 1 ≤ k → slice_get self.now.entry_names k ≢ Some name.now) }
    {
        match place_of(&self.arrays().entry_names, name) {
            Some(entry) => Some(EntryId(entry as u32)),
            None => None,
        }
    }

    /// The condition with this name. None exactly where no condition has it.
    pub fn cond_named(&self, name: &[u8]) -> Option<CondId>
        ensures found { IfSome result (λ c. slice_get self.now.cond_names c.0 ≡ Some name.now) }
        ensures exists { IfSome result (λ c. (1 ≤ c.0) × (c.0 < length self.now.cond_names)) }
        ensures none { IfNone result ((k : ℕ) → 1 ≤ k → slice_get self.now.cond_names k ≢ Some name.now) }
    {
        match place_of(&self.arrays().cond_names, name) {
            Some(condition) => Some(CondId(condition as u8)),
            None => None,
        }
    }

    /// The entry `main`, or the first one where none has that name (this profile).
    pub fn start_entry(&self) -> EntryId
        ensures value { result.0 ≡ start_entry self.now }
        ensures exists { IsEntryNumber self.now result.0 }
    {
        EntryId(start_entry_of(self.arrays()) as u32)
    }
}

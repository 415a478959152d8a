// What the host of a replay and its lines look up in a machine.
ghost use Rattle.std.specs.Prelude.{◌≡◌, ℕ};
ghost use Rattle.rl_run.specs.Machine.{Machine};
ghost use Rattle.rl_run.specs.Twin.{name_of};

use rl_run::{Call, Statement};
use rl_types::{ActionId, EntryId};

/// Names and statements, as a machine has them. Each call answers for every number; what does not exist has the empty
/// name and no statements.
pub trait LookUps {
    /// The machine whose names and statements these are.
    ghost machine: { Self → Machine ℕ };

    /// The name of the action, or of the condition, that is called.
    fn called_name(&self, call: &Call) -> &[u8]
        ensures { result.now ≡ name_of (machine self.now) call.now };

    /// A statement of an action, counted from 1 in text order; None where it has no such statement.
    fn statement(&self, action: ActionId, number: u32) -> Option<Statement>
        ensures { result ≡ (machine self.now).statement action.0 number };

    /// The name of an entry.
    fn entry_name(&self, entry: EntryId) -> &[u8]
        ensures { result.now ≡ (machine self.now).entry_name entry.0 };
}

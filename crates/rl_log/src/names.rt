// The names and statements of tables, for the lines of a run.
ghost use Rattle.std.specs.Prelude.{◌≡◌};
ghost use Rattle.rl_arrays.specs.TableMachine.{machine, name_at};
ghost use Rattle.rl_run.specs.Twin.{name_of};

use rl_replay::LookUps;
use rl_run::{Call, CallKind, Statement};
use rl_tables::Tables;
use rl_types::{ActionId, EntryId, List, Name};

/// The names and statements of the machine of tables, as the lines of a run look them up.
#[derive(Drop)]
pub struct Names<'a> {
    /// The tables whose machine it is.
    pub tables: &'a Tables,
}

// The name at a place; the empty name where there is none.
#[tactic(auto, unfolding(rl_arrays::specs::TableMachine::machine))]
fn name_in(names: &List<Name>, place: u32) -> &[u8]
    ensures { result.now ≡ name_at names.now place }
{
    match names.as_slice().get(place as usize) {
        Some(name) => name.bytes(),
        None => b"",
    }
}

/// The name of the action, or of the condition, that is called; the empty name where the machine has none.
#[tactic(auto, unfolding(rl_arrays::specs::TableMachine::machine))]
pub fn name_called<'a>(tables: &'a Tables, call: &Call) -> &'a [u8]
    ensures { result.now ≡ name_of (machine tables.now) call.now }
{
    let arrays = tables.arrays();
    match call.kind {
        CallKind::Ask => name_in(&arrays.cond_names, call.action.0),
        CallKind::From
        | CallKind::Do
        | CallKind::Error
        | CallKind::To
        | CallKind::Token
        | CallKind::Eof => name_in(&arrays.action_names, call.action.0),
    }
}

#[tactic(auto, unfolding(rl_arrays::specs::TableMachine::machine))]
impl LookUps for Names<'_> {
    ghost use Rattle.rl_arrays.specs.TableMachine.{machine as machine_of};

    ghost machine = { λ names. machine_of names.tables.now };

    fn called_name(&self, call: &Call) -> &[u8] {
        name_called(self.tables, call)
    }

    fn statement(&self, action: ActionId, number: u32) -> Option<Statement> {
        self.tables.statement(action, number)
    }

    fn entry_name(&self, entry: EntryId) -> &[u8] {
        name_in(&self.tables.arrays().entry_names, entry.0)
    }
}

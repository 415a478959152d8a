// The code of actions.
ghost use Rattle.std.specs.Prelude.{◌≡◌, ◌↔◌, IsTrue, IfOk, All, map};
ghost use Rattle.rl_automata.specs.Refused.{AreDifferent};
ghost use Rattle.rl_code.specs.Reading.{IsReadAs};
ghost use Rattle.rl_model.specs.declared.spec.ActionDef as action;
ghost use Rattle.rl_model.specs.declared.spec.Entry as entry;
ghost use Rattle.rl_model.specs.WellFormed.{IsCodeRead};
ghost use Rattle.rl_form.specs.Texts.{texts};

use crate::differ::{Names, entry_names};
use rl_model::{ActionDef, Spec};
use rl_statements::is_read_as;
use rl_types::Memory;
use std::alloc::Global;

// Whether the code of each action says what its statements are, among entries of these names.
fn are_read(alloc: Global, names: &Names<'_>, actions: &[ActionDef]) -> Result<bool, Memory>
    ensures { IfOk result (λ b. IsTrue b ↔ All (λ (a : action.ActionDef). IsReadAs (texts names.now) a.code a.statements) actions.now) }
{
    for a in actions {
        let is_read = is_read_as(alloc, names, a.code.bytes(), a.statements.as_slice())?;
        if !is_read {
            return Ok(false);
        }
    }
    Ok(true)
}

// Whether the code of each action of a Spec says what its statements are.
pub(crate) fn are_codes_read(alloc: Global, spec: &Spec) -> Result<bool, Memory>
    requires { AreDifferent (map (λ (e : entry.Entry). e.name) spec.now.entries) }
    ensures { IfOk result (λ b. IsTrue b ↔ All (IsCodeRead spec.now) spec.now.actions) }
{
    let names = entry_names(alloc, spec.entries.as_slice())?;
    let is_read = are_read(alloc, &names, spec.actions.as_slice())?;
    Ok(is_read)
}

// Whether a Spec has its form.
ghost use Rattle.std.specs.Prelude.{◌↔◌, IsTrue, IfOk};
ghost use Rattle.rl_model.specs.WellFormed.{IsWellFormed};
ghost use Rattle.rl_form.specs.Parts.{HasParts};

use crate::codes::are_codes_read;
use crate::differ::are_apart;
use crate::parts::{are_few, are_sound};
use crate::quiet::are_quiet;
use rl_model::Spec;
use rl_types::Memory;
use std::alloc::Global;

fn has_parts(alloc: Global, spec: &Spec) -> Result<bool, Memory>
    ensures { IfOk result (λ b. IsTrue b ↔ HasParts spec.now) }
{
    if !are_few(spec) {
        return Ok(false);
    }
    if !are_sound(spec) {
        return Ok(false);
    }
    if !are_quiet(spec) {
        return Ok(false);
    }
    let is_apart = are_apart(alloc, spec)?;
    if !is_apart {
        return Ok(false);
    }
    are_codes_read(alloc, spec)
}

/// Whether the Spec is well-formed. The only error is want of memory.
pub fn has_form(alloc: Global, spec: &Spec) -> Result<bool, Memory>
    ensures { IfOk result (λ b. IsTrue b ↔ IsWellFormed spec.now) }
{
    has_parts(alloc, spec)
}

// Looks whether Specs are well-formed.
ghost use Rattle.std.specs.Prelude.{◌≡◌, All, MatchResult};
ghost use Rattle.rl_resolve.specs.Answers.{IsFormed};
ghost use Rattle.rl_resolve.specs.declared.answer.ResolveFault.TheVariants as refusal;

use crate::answer::ResolveFault;
use rl_form::has_form;
use rl_model::Spec;
use std::alloc::Global;

fn check_form(alloc: Global, spec: &Spec) -> Result<(), ResolveFault>
    ensures { MatchResult result (λ _. IsFormed spec.now) (λ e. e ≡ refusal.Memory) }
{
    if spec.entries.is_empty() {
        return Ok(());
    }
    let Ok(formed) = has_form(alloc, spec) else {
        return Err(ResolveFault::Memory);
    };
    if formed {
        Ok(())
    } else {
        Err(ResolveFault::Memory)
    }
}

/// Each Spec with entries is well-formed. That it is so follows from how they were made; it is looked at again, and want of
/// memory is told where it is not.
pub fn check_forms(alloc: Global, specs: &[Spec]) -> Result<(), ResolveFault>
    ensures { MatchResult result (λ _. All IsFormed specs.now) (λ e. e ≡ refusal.Memory) }
{
    for spec in specs {
        check_form(alloc, spec)?;
    }
    Ok(())
}

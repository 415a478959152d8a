// The data section of a machine.
ghost use Rattle.std.specs.Prelude.{◌≡◌, option_copied, IfOk, IfErr};
ghost use Rattle.std.specs.List.{find};
ghost use Rattle.rl_model.specs.WellFormed.{IsWellFormed};
ghost use Rattle.rl_model.specs.RefusedNode.{IsBuildable};
ghost use Rattle.rl_resolve.specs.Answers.{is_running as is_running_in};
ghost use Rattle.rl_compile.specs.Sources.{IsUnbuilt, chosen as chosen_in};
ghost use Rattle.rl_compile.specs.Sections.{Because, IsSectionFor, IsSectionIn, RefusesSection, runs_of as runs_by};

use crate::fault::CompileFault;
use crate::nodes::tables_for;
use crate::source::specs_of;
use rl_cdata::data_text;
use rl_io::Store;
use rl_model::Spec;
use rl_resolve::Runs;
use rl_types::List;
use std::alloc::Global;

/// Whether a Spec is that of the machine of this name, and has an entry.
fn is_running(name: &[u8], spec: &Spec) -> bool
    ensures { result ≡ is_running_in name.now spec.now }
{
    name == spec.machine.bytes() && !spec.entries.as_slice().is_empty()
}

/// The first of the Specs that is that of the machine of this name, and has an entry.
fn named<'a>(name: &[u8], specs: &'a [Spec]) -> Option<&'a Spec>
    ensures { option_copied result ≡ find (is_running_in name.now) specs.now }
{
    specs.iter().find(|spec| is_running(name, spec))
}

/// The Spec of the machine that runs.
fn chosen<'a>(runs: Runs<'_>, specs: &'a [Spec]) -> Option<&'a Spec>
    ensures { option_copied result ≡ chosen_in runs.entry specs.now }
{
    match runs {
        Runs::Nobody => None,
        Runs::First => specs.first(),
        Runs::Named(name) => named(name.as_bytes(), specs),
    }
}

/// The data section of a Spec.
fn section_for(alloc: Global, spec: &Spec) -> Result<List<u8>, CompileFault>
    requires { IsWellFormed spec.now }
    ensures buildable { IfOk result (λ _. IsBuildable spec.now) }
    ensures section { IfOk result (IsSectionFor spec.now) }
    ensures refused { IfErr result (Because (IsUnbuilt spec.now)) }
{
    let tables = match tables_for(alloc, spec) {
        Ok(tables) => tables,
        Err(fault) => return Err(fault),
    };
    match data_text(alloc, &tables) {
        Ok(text) => Ok(List::from_vec(text)),
        Err(_) => Err(CompileFault::Memory),
    }
}

/// The machine of a name runs; without one the first.
fn runs_of<'a>(machine: Option<&'a str>) -> Runs<'a>
    ensures { result ≡ runs_by machine.entry }
{
    match machine {
        Some(name) => Runs::Named(name),
        None => Runs::First,
    }
}

/// The data section of the machine of this name in the source of a file, or of the source's first machine: the bytes
/// that `write data` stands for. The tables that the section spells make the runs that the machine's expressions make, and
/// write for each script what these write.
///
/// The error is the first refusal: as `specs_of` tells it, where this machine runs, or the first refused node of the
/// machine, with its place: L6, L8, F15 or F12. `Memory` may come at any time. The store holds what it held.
pub fn section_of<S: Store>(
    alloc: Global,
    file: &str,
    machine: Option<&str>,
    store: &mut S,
) -> Result<List<u8>, CompileFault>
    ensures section { IfOk result (IsSectionIn (S.held store.old) file.now (runs_by machine.entry)) }
    ensures quiet { IfOk result (λ _. S.faults store.new ≡ S.faults store.old) }
    ensures refused { IfErr result (Because (RefusesSection (S.held store.old) file.now (runs_by machine.entry)
        (S.faults store.old) (S.faults store.new))) }
    ensures same { S.held store.new ≡ S.held store.old }
{
    let runs = runs_of(machine);
    let specs = match specs_of(alloc, file, runs, store) {
        Ok(specs) => specs,
        Err(fault) => return Err(fault),
    };
    match chosen(runs, specs.as_slice()) {
        Some(spec) => section_for(alloc, spec),
        None => Err(CompileFault::Memory),
    }
}

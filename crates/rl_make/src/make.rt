// The tables of a Spec.
ghost use Rattle.std.specs.Prelude.{◌≡◌, ◌≤◌, IfOk, IfErr, OnOk, length};
ghost use Rattle.rl_arrays.specs.Valid.{Valid};
ghost use Rattle.rl_layout.specs.Fits.{Fits};
ghost use Rattle.rl_layout.specs.Shown.{Shows};
ghost use Rattle.rl_reach.specs.Canonical.{IsMachineOf};
ghost use Rattle.rl_minimal.specs.Sound.{IsMinimal};
ghost use Rattle.rl_model.specs.RefusedNode.{IsBuildable};
ghost use Rattle.rl_model.specs.Specification.{specification_of};
ghost use Rattle.rl_model.specs.Trees.{HasHonestTests};
ghost use Rattle.rl_model.specs.WellFormed.{IsWellFormed};
ghost use Rattle.rl_build.specs.Entries.{TellsRefusal};
ghost use Rattle.rl_make.specs.Named.{NamesUsed};
ghost use Rattle.rl_make.specs.Twins.{RunsAs};
ghost use Rattle.rl_make.specs.Writes.{IsBuiltOf, WritesAs, condition_names, entry_names};
ghost use Rattle.rl_script.specs.TableNames.{names_in};

use rl_build::{BuildFault, BuildRefusal, build};
use rl_fsm::RootFsm;
use rl_layout::layout;
use rl_min::minimise;
use rl_minimal::MinFsm;
use rl_model::Spec;
use rl_tables::Tables;
use rl_types::{Memory, Place};
use std::alloc::Global;

// Want of memory, which has no place of its own.
fn no_memory() -> BuildRefusal
    ensures { result.fault ≡ BuildFault.Memory }
{
    BuildRefusal {
        fault: BuildFault::Memory,
        place: Place {
            file: 0,
            line: 1,
            col: 1,
        },
    }
}

// The machine of all entries, with canonical numbers.
fn numbered(alloc: Global, root: &RootFsm) -> Result<MinFsm, Memory>
    requires { 1 ≤ length root.now }
    ensures machine { IfOk result (λ m. IsMachineOf root.now m) }
    ensures sound { IfOk result (λ m. IsMinimal m) }
{
    let machine = minimise(alloc, root)?;
    let _states = machine.states();
    Ok(machine)
}

// The tables of a machine that was built.
fn laid_out(alloc: Global, spec: &Spec, root: &RootFsm) -> Result<Tables, Memory>
    requires well_formed { IsWellFormed spec.now }
    requires built { IsBuiltOf spec.now root.now }
    ensures valid { IfOk result Valid }
    ensures writes { IfOk result (WritesAs spec.now) }
    ensures runs { IfOk result (RunsAs spec.now) }
    ensures entries { IfOk result (λ t. (names_in t).entries ≡ entry_names spec.now) }
    ensures actions { IfOk result (NamesUsed spec.now) }
    ensures conditions { IfOk result (λ t. (names_in t).conditions ≡ condition_names spec.now) }
{
    let machine = numbered(alloc, root)?;
    let tables = layout(alloc, spec, &machine)?;
    Ok(tables)
}

/// The tables of a well-formed Spec: the machines of its entries are built, their states get canonical numbers, and they
/// are laid out in arrays. From each entry they make the runs that the expressions make, and they write for each script what
/// the expressions write. They name the Spec's entries and conditions, and of its actions those that stand in a list of a state
/// or step which the entries reach.
///
/// An `Err` tells the first node that is refused, with the entries in text order and the nodes of each in post-order:
/// `L6`, `L8`, `F15` or `F12`, as `build` says, with its place; or `Memory`, at no place of its own.
pub fn tables_of(alloc: Global, spec: &Spec) -> Result<Tables, BuildRefusal>
    requires { IsWellFormed spec.now }
    ensures valid { IfOk result Valid }
    ensures writes { IfOk result (WritesAs spec.now) }
    ensures runs { IfOk result (RunsAs spec.now) }
    ensures entries { IfOk result (λ t. (names_in t).entries ≡ entry_names spec.now) }
    ensures actions { IfOk result (NamesUsed spec.now) }
    ensures conditions { IfOk result (λ t. (names_in t).conditions ≡ condition_names spec.now) }
    ensures tests { OnOk result (HasHonestTests (specification_of spec.now)) }
    ensures accepted { OnOk result (IsBuildable spec.now) }
    ensures refused { IfErr result (TellsRefusal spec.now) }
{
    let root = build(alloc, spec)?;
    match laid_out(alloc, spec, &root) {
        Ok(tables) => Ok(tables),
        Err(Memory) => Err(no_memory()),
    }
}

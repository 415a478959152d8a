// The tables of a Spec, or its first refused node.
ghost use Rattle.std.specs.Prelude.{◌≡◌, IfOk, IfErr};
ghost use Rattle.rl_model.specs.WellFormed.{IsWellFormed};
ghost use Rattle.rl_model.specs.RefusedNode.{IsBuildable};
ghost use Rattle.rl_resolve.specs.Refusals.{file_name};
ghost use Rattle.rl_compile.specs.declared.fault.CompileFault.TheVariants as faults;
ghost use Rattle.rl_compile.specs.Sources.{IsUnbuilt};
ghost use Rattle.rl_compile.specs.Sections.{Because, IsMadeFor};
ghost use Rattle.rl_compile.specs.Reads.{TellsNode};

use crate::fault::CompileFault;
use crate::source::name_of;
use rl_make::{BuildFault, BuildRefusal, tables_of};
use rl_model::Spec;
use rl_tables::Tables;
use rl_types::{Fault, FaultKind, Limit, LimitKind, Memory, Name, Place};
use std::alloc::Global;

/// The name of the file with this number.
fn file_named(alloc: Global, files: &[Name], number: u64) -> Result<Name, Memory>
    ensures { IfOk result (λ name. name ≡ file_name files.now number) }
{
    match files.get(number as usize) {
        Some(file) => name_of(alloc, file.bytes()),
        None => name_of(alloc, &[]),
    }
}

/// A limit in a file.
fn limit_at(kind: LimitKind, place: Place, file: Name) -> CompileFault
    ensures { result ≡ faults.Limit (record { kind = kind; place = place }) file }
{
    CompileFault::Limit(Limit { kind, place }, file)
}

/// A fault in a file.
fn fault_at(kind: FaultKind, place: Place, file: Name) -> CompileFault
    ensures { result ≡ faults.Fault (record { kind = kind; place = place }) file }
{
    CompileFault::Fault(Fault { kind, place }, file)
}

/// How a refused node is told.
fn told_by_node(alloc: Global, files: &[Name], refusal: BuildRefusal) -> CompileFault
    ensures { TellsNode files.now refusal result }
{
    let place = refusal.place;
    let Ok(file) = file_named(alloc, files, place.file) else {
        return CompileFault::Memory;
    };
    match refusal.fault {
        BuildFault::L6 => limit_at(LimitKind::L6, place, file),
        BuildFault::L8 => limit_at(LimitKind::L8, place, file),
        BuildFault::F15 => fault_at(FaultKind::F15, place, file),
        BuildFault::F12(_) => fault_at(FaultKind::F12, place, file),
        BuildFault::Memory => CompileFault::Memory,
    }
}

/// The tables of a well-formed Spec, as `tables_of` makes them: they make the runs that its expressions make, and write
/// for each script what these write.
///
/// The error is the first refused node, with its place and the name of its file: L6, L8, F15 or F12, as `tables_of`
/// tells it; or `Memory`, which may come at any time.
pub fn tables_for(alloc: Global, spec: &Spec) -> Result<Tables, CompileFault>
    requires { IsWellFormed spec.now }
    ensures buildable { IfOk result (λ _. IsBuildable spec.now) }
    ensures made { IfOk result (IsMadeFor spec.now) }
    ensures refused { IfErr result (Because (IsUnbuilt spec.now)) }
{
    match tables_of(alloc, spec) {
        Ok(tables) => Ok(tables),
        Err(refusal) => Err(told_by_node(alloc, spec.files.as_slice(), refusal)),
    }
}

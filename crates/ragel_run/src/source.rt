// The tables of a source's machine.
ghost use Rattle.std.specs.Prelude.{◌≡◌, Some, None, IfOk, IfErr, MatchOption};
ghost use Rattle.std.specs.List.{find};
ghost use Rattle.std.specs.Option.{option_copied};
ghost use Rattle.rl_model.specs.WellFormed.{IsWellFormed};
ghost use Rattle.rl_model.specs.RefusedNode.{IsBuildable};
ghost use Rattle.rl_resolve.specs.Answers.{is_running};
ghost use Rattle.rl_resolve.specs.Refusals.{file_name};
ghost use Rattle.rl_ends.specs.declared.refusal.Refusal.TheVariants as refusals;
ghost use Rattle.rl_words.specs.Told.{text_in};
ghost use Rattle.ragel_run.specs.Sources.{IsToRun, running};
ghost use Rattle.ragel_run.specs.Files.{IsMadeFor};
ghost use Rattle.ragel_run.specs.Reads.{AreFormed, IsRefusedSpec, ReadsSource, ReadsSpecs, ReadsTrees, TellsNode, refusal_by_names, refusal_by_text};

use crate::files;
use crate::files::name_of;
use rl_ends::Refusal;
use rl_files::read_file;
use rl_grammar::ReadFault;
use rl_grammar::syntax::Syntax;
use rl_io::{Store, StoreFault};
use rl_make::{BuildFault, BuildRefusal, tables_of};
use rl_model::Spec;
use rl_resolve::{ResolveFault, Runs, resolve};
use rl_tables::Tables;
use rl_types::{Fault, FaultKind, Limit, LimitKind, List, Memory, Name, Place};
use std::alloc::Global;

// Why the text of a source is not read.
#[derive(Clone, Copy)]
pub enum Unread {
    Missing,
    Failed,
    Fault(Fault),
    Limit(Limit),
    Memory,
}

// The trees of the text under a name.
fn read_trees<S: Store>(alloc: Global, name: &str, store: &mut S) -> Result<List<Syntax>, Unread>
    ensures reads { ReadsTrees (S.held store.old) name.now (S.faults store.old) (S.faults store.new) result }
    ensures same { S.held store.new ≡ S.held store.old }
{
    let text = match store.read(name) {
        Ok(text) => text,
        Err(StoreFault::Missing) => return Err(Unread::Missing),
        Err(StoreFault::Failed) => return Err(Unread::Failed),
        Err(StoreFault::Memory) => return Err(Unread::Memory),
    };
    match read_file(alloc, &text, 0) {
        Ok(trees) => Ok(trees),
        Err(ReadFault::Fault(fault)) => Err(Unread::Fault(fault)),
        Err(ReadFault::Limit(limit)) => Err(Unread::Limit(limit)),
        Err(ReadFault::Memory) => Err(Unread::Memory),
    }
}

// The end where the text of a source is not read.
fn refusal_by_text(unread: Unread, file: Name) -> Refusal
    ensures { result ≡ refusal_by_text unread file }
{
    match unread {
        Unread::Missing => Refusal::Missing(file),
        Unread::Failed => Refusal::StoreFailed(file),
        Unread::Fault(fault) => Refusal::Fault(fault, file),
        Unread::Limit(limit) => Refusal::Limit(limit, file),
        Unread::Memory => Refusal::Memory,
    }
}

// The end where its statements are refused.
fn refusal_by_names(fault: ResolveFault) -> Refusal
    ensures { result ≡ refusal_by_names fault }
{
    match fault {
        ResolveFault::Fault(fault, file) => Refusal::Fault(fault, file),
        ResolveFault::Limit(limit, file) => Refusal::Limit(limit, file),
        ResolveFault::Missing(file) => Refusal::Missing(file),
        ResolveFault::StoreFailed(file) => Refusal::StoreFailed(file),
        ResolveFault::Memory => Refusal::Memory,
    }
}

// Which machine is to run.
fn runs_of<'a>(machine: Option<&'a str>) -> Runs<'a>
    ensures { IsToRun (text_in machine.entry) result }
{
    match machine {
        Some(name) => Runs::Named(name),
        None => Runs::First,
    }
}

// The specifications of the source under a name, one for each of its machines.
fn read_specs<S: Store>(
    alloc: Global,
    machine: Option<&str>,
    name: &str,
    store: &mut S,
) -> Result<List<Spec>, Refusal>
    ensures reads { ReadsSpecs (S.held store.old) (text_in machine.entry) name.now (S.faults store.old) (S.faults store.new) result }
    ensures formed { IfOk result (λ specs. AreFormed (text_in machine.entry) specs) }
    ensures same { S.held store.new ≡ S.held store.old }
{
    let Ok(file) = files::file_name(alloc, name) else {
        return Err(Refusal::Memory);
    };
    let trees = match read_trees(alloc, name, store) {
        Ok(trees) => trees,
        Err(unread) => return Err(refusal_by_text(unread, file)),
    };
    match resolve(alloc, trees, &file, runs_of(machine), store) {
        Ok(specs) => Ok(specs),
        Err(fault) => Err(refusal_by_names(fault)),
    }
}

// Whether a machine has this name, and an entry.
fn is_named(spec: &Spec, name: &str) -> bool
    ensures { result ≡ is_running name.now spec.now }
{
    name.as_bytes() == spec.machine.bytes() && !spec.entries.as_slice().is_empty()
}

// The first machine with this name and an entry.
fn find_named<'a>(specs: &'a [Spec], name: &str) -> Option<&'a Spec>
    ensures { option_copied result ≡ find (is_running name.now) specs.now }
{
    specs.iter().find(|spec| is_named(spec, name))
}

// The machine that runs.
fn find_running<'a>(specs: &'a [Spec], machine: Option<&str>) -> Option<&'a Spec>
    ensures { MatchOption result (running (text_in machine.entry) specs.now ≡ None) (λ s. running (text_in machine.entry) specs.now ≡ Some s.now) }
{
    match machine {
        Some(name) => find_named(specs, name),
        None => specs.first(),
    }
}

// The name of the file with this number.
fn file_named(alloc: Global, files: &[Name], number: u64) -> Result<Name, Memory>
    ensures { IfOk result (λ name. name ≡ file_name files.now number) }
{
    match files.get(number as usize) {
        Some(file) => name_of(alloc, file.bytes()),
        None => name_of(alloc, &[]),
    }
}

// A limit in a file.
fn limit_at(kind: LimitKind, place: Place, file: Name) -> Refusal
    ensures { result ≡ refusals.Limit (record { kind = kind; place = place }) file }
{
    Refusal::Limit(Limit { kind, place }, file)
}

// A fault in a file.
fn fault_at(kind: FaultKind, place: Place, file: Name) -> Refusal
    ensures { result ≡ refusals.Fault (record { kind = kind; place = place }) file }
{
    Refusal::Fault(Fault { kind, place }, file)
}

// How a refused node is told.
fn refusal_by_node(alloc: Global, files: &[Name], refusal: BuildRefusal) -> Refusal
    ensures { TellsNode files.now refusal result }
{
    let place = refusal.place;
    let Ok(file) = file_named(alloc, files, place.file) else {
        return Refusal::Memory;
    };
    match refusal.fault {
        BuildFault::L6 => limit_at(LimitKind::L6, place, file),
        BuildFault::L8 => limit_at(LimitKind::L8, place, file),
        BuildFault::F15 => fault_at(FaultKind::F15, place, file),
        BuildFault::F12(_) => fault_at(FaultKind::F12, place, file),
        BuildFault::Memory => Refusal::Memory,
    }
}

// The tables of a Spec.
fn tables_for(alloc: Global, spec: &Spec) -> Result<Tables, Refusal>
    requires { IsWellFormed spec.now }
    ensures buildable { IfOk result (λ _. IsBuildable spec.now) }
    ensures made { IfOk result (IsMadeFor spec.now) }
    ensures refused { IfErr result (IsRefusedSpec spec.now) }
{
    match tables_of(alloc, spec) {
        Ok(tables) => Ok(tables),
        Err(refusal) => Err(refusal_by_node(alloc, spec.files.as_slice(), refusal)),
    }
}

// The tables of the machine of this name, or of the first, of the source under a name. It has an entry, since it is to run.
pub fn read_source<S: Store>(
    alloc: Global,
    machine: Option<&str>,
    name: &str,
    store: &mut S,
) -> Result<Tables, Refusal>
    ensures reads { ReadsSource (S.held store.old) (text_in machine.entry) name.now (S.faults store.old) (S.faults store.new) result }
    ensures same { S.held store.new ≡ S.held store.old }
{
    let specs = match read_specs(alloc, machine, name, store) {
        Ok(specs) => specs,
        Err(refusal) => return Err(refusal),
    };
    match find_running(specs.as_slice(), machine) {
        Some(spec) => tables_for(alloc, spec),
        None => Err(Refusal::Memory),
    }
}

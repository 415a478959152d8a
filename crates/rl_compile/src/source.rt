// The Specs of a source.
ghost use Rattle.std.specs.Prelude.{◌≡◌, All, IfOk, IfErr};
ghost use Rattle.rl_io.specs.Outside.{Reads};
ghost use Rattle.rl_printed.specs.Reading.{HaveOwnNames};
ghost use Rattle.rl_resolve.specs.Answers.{IsFormed, HasRunning};
ghost use Rattle.rl_compile.specs.Sources.{HasSpecs};
ghost use Rattle.rl_compile.specs.Sections.{Because, RefusesSpecs};
ghost use Rattle.rl_compile.specs.Reads.{ReadsSource, ReadsSpecs, ReadsText, told_by_names, told_by_text};

use crate::fault::CompileFault;
use rl_files::read_file;
use rl_grammar::ReadFault;
use rl_io::{Store, StoreFault};
use rl_model::Spec;
use rl_resolve::{ResolveFault, Runs, resolve};
use rl_types::{List, Memory, Name};
use std::alloc::Global;

/// A name of these bytes.
pub fn name_of(alloc: Global, bytes: &[u8]) -> Result<Name, Memory>
    ensures { IfOk result (λ name. name ≡ bytes.now) }
{
    match Vec::from_slice(alloc, bytes) {
        Ok(bytes) => Ok(Name::new(bytes)),
        Err(_) => Err(Memory),
    }
}

/// The text under a name.
fn read_text<S: Store>(alloc: Global, name: &str, store: &mut S) -> Result<List<u8>, CompileFault>
    ensures reads { ReadsText (S.held store.old) name.now (S.faults store.old) (S.faults store.new) result }
    ensures same { S.held store.new ≡ S.held store.old }
{
    let Ok(file) = name_of(alloc, name.as_bytes()) else {
        return Err(CompileFault::Memory);
    };
    match store.read(name) {
        Ok(text) => Ok(List::from_vec(text)),
        Err(StoreFault::Missing) => Err(CompileFault::Missing(file)),
        Err(StoreFault::Failed) => Err(CompileFault::StoreFailed(file)),
        Err(StoreFault::Memory) => Err(CompileFault::Memory),
    }
}

/// How the refusal of a text is told.
fn told_by_text(fault: ReadFault, file: Name) -> CompileFault
    ensures { result ≡ told_by_text fault file }
{
    match fault {
        ReadFault::Fault(fault) => CompileFault::Fault(fault, file),
        ReadFault::Limit(limit) => CompileFault::Limit(limit, file),
        ReadFault::Memory => CompileFault::Memory,
    }
}

/// How a refusal of statements is told.
fn told_by_names(fault: ResolveFault) -> CompileFault
    ensures { result ≡ told_by_names fault }
{
    match fault {
        ResolveFault::Fault(fault, file) => CompileFault::Fault(fault, file),
        ResolveFault::Limit(limit, file) => CompileFault::Limit(limit, file),
        ResolveFault::Missing(file) => CompileFault::Missing(file),
        ResolveFault::StoreFailed(file) => CompileFault::StoreFailed(file),
        ResolveFault::Memory => CompileFault::Memory,
    }
}

/// The Specs of a text that the file of this name holds.
fn specs_in<S: Store>(
    alloc: Global,
    text: &[u8],
    name: &str,
    runs: Runs<'_>,
    store: &mut S,
) -> Result<List<Spec>, CompileFault>
    requires { Reads (S.held store.old) name.now text.now }
    ensures reads { ReadsSpecs (S.held store.old) name.now runs.entry text.now
        (S.faults store.old) (S.faults store.new) result }
    ensures formed { IfOk result (All IsFormed) }
    ensures running { IfOk result (HasRunning runs.entry) }
    ensures named { IfOk result HaveOwnNames }
    ensures same { S.held store.new ≡ S.held store.old }
{
    let Ok(file) = name_of(alloc, name.as_bytes()) else {
        return Err(CompileFault::Memory);
    };
    let trees = match read_file(alloc, text, 0) {
        Ok(trees) => trees,
        Err(fault) => return Err(told_by_text(fault, file)),
    };
    match resolve(alloc, trees, &file, runs, store) {
        Ok(specs) => Ok(specs),
        Err(fault) => Err(told_by_names(fault)),
    }
}

/// The text of a source, and its Specs.
pub fn read_source<S: Store>(
    alloc: Global,
    name: &str,
    runs: Runs<'_>,
    store: &mut S,
) -> Result<(List<u8>, List<Spec>), CompileFault>
    ensures reads { ReadsSource (S.held store.old) name.now runs.entry
        (S.faults store.old) (S.faults store.new) result }
    ensures formed { IfOk result (λ read. All IsFormed read.1) }
    ensures running { IfOk result (λ read. HasRunning runs.entry read.1) }
    ensures named { IfOk result (λ read. HaveOwnNames read.1) }
    ensures same { S.held store.new ≡ S.held store.old }
{
    let text = match read_text(alloc, name, store) {
        Ok(text) => text,
        Err(fault) => return Err(fault),
    };
    match specs_in(alloc, text.as_slice(), name, runs, store) {
        Ok(specs) => Ok((text, specs)),
        Err(fault) => Err(fault),
    }
}

/// The Specs of the source in a file, one for each machine that a `machine` statement (the guide's section 2.1.1) of
/// the file itself names, in order of first mention. `runs` says which machine the command line runs. The file and those
/// that it includes are read from the store.
///
/// The error is the first refusal, each step over the whole before the next (this profile):
///
/// - `Missing` or `StoreFailed` where the file is not read;
/// - L1 where it has more than 4,194,304 bytes; F2 and F19; F1 and F7; F3, F10, F11 and L3;
/// - what `resolve` tells: faults of names and of included files, of keys and of entries, and the limits of entries.
///
/// The store holds what it held. Its count of faults rises only where it failed, and `StoreFailed` comes only then.
/// `Memory` may come at any time. A Spec that has an entry is well-formed.
pub fn specs_of<S: Store>(
    alloc: Global,
    file: &str,
    runs: Runs<'_>,
    store: &mut S,
) -> Result<List<Spec>, CompileFault>
    ensures says { IfOk result (HasSpecs (S.held store.old) file.now runs.entry) }
    ensures quiet { IfOk result (λ _. S.faults store.new ≡ S.faults store.old) }
    ensures refused { IfErr result
        (Because (RefusesSpecs (S.held store.old) file.now runs.entry (S.faults store.old) (S.faults store.new))) }
    ensures formed { IfOk result (All IsFormed) }
    ensures running { IfOk result (HasRunning runs.entry) }
    ensures same { S.held store.new ≡ S.held store.old }
{
    match read_source(alloc, file, runs, store) {
        Ok((_text, specs)) => Ok(specs),
        Err(fault) => Err(fault),
    }
}

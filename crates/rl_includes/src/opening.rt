// The opening of a file that an `include` names.
ghost use Rattle.std.specs.Prelude.{◌≡◌, false, is_some, IfOk, OnOk};
ghost use Rattle.std.specs.List.{list_any};
ghost use Rattle.rl_io.specs.Outside.{HasCause};
ghost use Rattle.rl_includes.specs.Answers.{FailsIn, IsTold, stop_of};
ghost use Rattle.rl_includes.specs.Unrolling as unrolling;

use crate::lookup::{add_file, file_number, same_text};
use crate::memory::copied;
use crate::reader::{Answer, Reader, Request};
use crate::store::answer;
use crate::turn::fault;
use crate::unrolled::{Stop, Unrolled};
use rl_files::read_file;
use rl_grammar::ReadFault;
use rl_grammar::syntax::{Statement, Syntax};
use rl_io::Store;
use rl_types::{FaultKind, List, Memory, Name};
use std::alloc::Global;

/// Whether a statement names this machine.
fn is_machine(name: &[u8], statement: &Statement) -> bool
    ensures { result ≡ unrolling.is_machine name.now statement.now }
{
    match statement {
        Statement::Machine(machine) => same_text(machine.name.text.as_slice(), name),
        _ => false,
    }
}

fn names_machine(name: &[u8], tree: &Syntax) -> bool
    ensures { result ≡ list_any (unrolling.is_machine name.now) tree.now.statements }
{
    tree.statements
        .as_slice()
        .iter()
        .any(|statement| is_machine(name, statement))
}

/// Whether a machine is in a file.
fn has_machine(name: &[u8], trees: &[Syntax]) -> bool
    ensures { result ≡ unrolling.has_machine name.now trees.now }
{
    trees.iter().any(|tree| names_machine(name, tree))
}

/// Whether the machine that is named is absent.
fn is_absent(request: &Request, trees: &[Syntax]) -> bool
    ensures { result ≡ unrolling.is_absent request.now trees.now }
{
    request.named && !has_machine(request.part.sought.bytes(), trees)
}

/// The trees of a file, where it has the machine that is named.
fn open_trees(
    alloc: Global,
    reader: &Reader,
    request: &Request,
    trees: List<Syntax>,
    unrolled: &mut Unrolled,
) -> Result<Option<List<Syntax>>, Memory>
    ensures { IfOk result (λ opened. unrolling.OpensTrees reader.now request.now trees unrolled.old unrolled.new opened) }
{
    if is_absent(request, trees.as_slice()) {
        fault(alloc, FaultKind::F4, request.place, &reader.name, unrolled)?;
        return Ok(None);
    }
    Ok(Some(trees))
}

/// What ends where a file is not read; None is want of memory.
fn stop_of(fault: ReadFault, file: Name) -> Option<Stop>
    ensures { result ≡ stop_of fault file }
{
    match fault {
        ReadFault::Fault(fault) => Some(Stop::Fault(fault, file)),
        ReadFault::Limit(limit) => Some(Stop::Limit(limit, file)),
        ReadFault::Memory => None,
    }
}

/// A file that is not read ends what is unrolled.
fn refuse(
    fault: ReadFault,
    file: Name,
    unrolled: &mut Unrolled,
) -> Result<Option<List<Syntax>>, Memory>
    ensures { IfOk result (IsTold fault file unrolled.old unrolled.new) }
{
    match stop_of(fault, file) {
        None => Err(Memory),
        Some(stop) => {
            unrolled.stop = Some(stop);
            Ok(None)
        }
    }
}

/// The trees of a file of this text.
fn open_text(
    alloc: Global,
    reader: &Reader,
    request: &Request,
    text: &[u8],
    unrolled: &mut Unrolled,
) -> Result<Option<List<Syntax>>, Memory>
    ensures { IfOk result (λ opened. unrolling.OpensText reader.now request.now text.now unrolled.old unrolled.new opened) }
{
    let number = file_number(unrolled.files.as_slice(), request.file.bytes());
    let file = copied(alloc, &request.file)?;
    add_file(alloc, &mut unrolled.files, &request.file)?;
    match read_file(alloc, text, number) {
        Ok(trees) => open_trees(alloc, reader, request, trees, unrolled),
        Err(fault) => refuse(fault, file, unrolled),
    }
}

/// The trees of the file that an `include` names, or the refusal that ends what is unrolled.
pub fn open_file<S: Store>(
    alloc: Global,
    reader: &Reader,
    request: &Request,
    unrolled: &mut Unrolled,
    store: &mut S,
) -> Result<Option<List<Syntax>>, Memory>
    requires { is_some unrolled.old.stop ≡ false }
    ensures opens { IfOk result (λ opened. unrolling.Opens (S.held store.old) reader.now request.now unrolled.old unrolled.new opened) }
    ensures same { S.held store.new ≡ S.held store.old }
    ensures cause { HasCause (S.faults store.old) (S.faults store.new) (FailsIn result unrolled.new.stop) }
{
    let file = copied(alloc, &request.file)?;
    match answer(store, &request.file)? {
        Answer::Text(text) => open_text(alloc, reader, request, text.as_slice(), unrolled),
        Answer::Missing => {
            unrolled.stop = Some(Stop::Missing(file));
            Ok(None)
        }
        Answer::Failed => {
            unrolled.stop = Some(Stop::StoreFailed(file));
            Ok(None)
        }
    }
}

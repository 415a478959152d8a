// The statements of a source, with the files that it includes read in place.
ghost use Rattle.std.specs.Prelude.{◌≡◌, ◌<◌, ◌-◌, false, reverse, None, Some, is_some, IfOk, OnOk};
ghost use Rattle.rl_io.specs.Outside.{HasCause};
ghost use Rattle.rl_includes.specs.Answers.{IsTaken, FailsIn, EndsInFailure};
ghost use Rattle.rl_includes.specs.Unrolling as unrolling;

use crate::lookup::{file_number, is_among};
use crate::memory::{copied, with_name};
use crate::opening::open_file;
use crate::queue::{next, queue_of};
use crate::reader::{Extent, Located, Reader, Request};
use crate::turn::{current_behind, fault, turn};
use crate::unrolled::{Stop, Unrolled};
use rl_grammar::syntax::Syntax;
use rl_io::Store;
use rl_types::{FaultKind, Limit, LimitKind, List, MOST_INCLUDES, Memory, Name, Place};
use std::alloc::Global;

/// L2 ends what is unrolled.
fn too_deep(
    alloc: Global,
    reader: &Reader,
    place: Place,
    unrolled: &mut Unrolled,
) -> Result<(), Memory>
    ensures { OnOk result (unrolled.new ≡ unrolling.too_deep reader.now place unrolled.old) }
{
    let file = copied(alloc, &reader.name)?;
    let kind = LimitKind::L2;
    unrolled.stop = Some(Stop::Limit(Limit { kind, place }, file));
    Ok(())
}

/// How a file is read that an `include` names.
fn inner(alloc: Global, reader: &Reader, request: Request, number: u64) -> Result<Reader, Memory>
    requires { 0 < reader.now.left }
    ensures { IfOk result (λ found. found ≡ unrolling.inner reader.now request number) }
{
    let Request {
        place: _,
        file,
        named: _,
        part,
    } = request;
    let being_read = with_name(alloc, reader.being_read.as_slice(), &file)?;
    Ok(Reader {
        name: file,
        being_read,
        number,
        extent: Extent::Included(part),
        left: reader.left - 1,
    })
}

/// The file that an `include` names is read in place of it.
#[cycle(unrolling)]
fn include<S: Store>(
    alloc: Global,
    reader: &Reader,
    request: Request,
    unrolled: &mut Unrolled,
    store: &mut S,
) -> Result<(), Memory>
    requires { is_some unrolled.old.stop ≡ false }
    ensures included { OnOk result (unrolling.Includes reader.now.left (S.held store.old) reader.now request unrolled.old unrolled.new) }
    ensures same { S.held store.new ≡ S.held store.old }
    ensures cause { HasCause (S.faults store.old) (S.faults store.new) (FailsIn result unrolled.new.stop) }
{
    if is_among(reader.being_read.as_slice(), request.file.bytes()) {
        return fault(alloc, FaultKind::F17, request.place, &reader.name, unrolled);
    }
    if reader.left == 0 {
        return too_deep(alloc, reader, request.place, unrolled);
    }
    let number = file_number(unrolled.files.as_slice(), request.file.bytes());
    let opened = open_file(alloc, reader, &request, unrolled, store)?;
    match opened {
        None => Ok(()),
        Some(trees) => enter(alloc, reader, request, number, trees, unrolled, store),
    }
}

/// The statements of a file that is opened.
#[cycle(unrolling)]
fn enter<S: Store>(
    alloc: Global,
    reader: &Reader,
    request: Request,
    number: u64,
    trees: List<Syntax>,
    unrolled: &mut Unrolled,
    store: &mut S,
) -> Result<(), Memory>
    requires left { 0 < reader.now.left }
    requires unstopped { is_some unrolled.old.stop ≡ false }
    ensures entered { OnOk result (unrolling.GoesOn (unrolling.Includes (reader.now.left - 1) (S.held store.old)) (unrolling.inner reader.now request number) (Some trees) unrolled.old unrolled.new) }
    ensures same { S.held store.new ≡ S.held store.old }
    ensures cause { HasCause (S.faults store.old) (S.faults store.new) (FailsIn result unrolled.new.stop) }
{
    let inner = inner(alloc, reader, request, number)?;
    let queue = queue_of(alloc, trees)?;
    follow(alloc, &inner, queue, unrolled, store)
}

/// A statement of a file, and what it includes. The result is the current machine behind it.
#[cycle(unrolling)]
fn take<S: Store>(
    alloc: Global,
    reader: &Reader,
    current: Option<Name>,
    item: Located,
    unrolled: &mut Unrolled,
    store: &mut S,
) -> Result<Option<Name>, Memory>
    requires { is_some unrolled.old.stop ≡ false }
    ensures taken { IfOk result (λ behind. IsTaken (unrolling.Includes reader.now.left (S.held store.old)) reader.now current item unrolled.old unrolled.new behind) }
    ensures same { S.held store.new ≡ S.held store.old }
    ensures cause { HasCause (S.faults store.old) (S.faults store.new) (FailsIn result unrolled.new.stop) }
{
    let behind = current_behind(alloc, current, &item.statement)?;
    let request = turn(alloc, reader, &behind, item, unrolled)?;
    match request {
        None => Ok(behind),
        Some(request) => {
            include(alloc, reader, request, unrolled, store)?;
            Ok(behind)
        }
    }
}

/// The statements of a file, up to the first refusal.
#[cycle(unrolling)]
fn follow<S: Store>(
    alloc: Global,
    reader: &Reader,
    queue: List<Located>,
    unrolled: &mut Unrolled,
    store: &mut S,
) -> Result<(), Memory>
    requires { is_some unrolled.old.stop ≡ false }
    ensures followed { OnOk result (unrolling.Follows (unrolling.Includes reader.now.left (S.held store.old)) reader.now (reverse queue) None unrolled.old unrolled.new) }
    ensures same { S.held store.new ≡ S.held store.old }
    ensures cause { HasCause (S.faults store.old) (S.faults store.new) (FailsIn result unrolled.new.stop) }
{
    let mut queue = queue;
    let mut current = None;
    while let Some(item) = next(&mut queue, unrolled) {
        current = take(alloc, reader, current, item, unrolled, store)?;
    }
    Ok(())
}

/// How the source itself is read.
fn source_reader(alloc: Global, file: &Name) -> Result<Reader, Memory>
    ensures { IfOk result (λ reader. reader ≡ unrolling.source_reader file.now) }
{
    let name = copied(alloc, file)?;
    let being_read = with_name(alloc, &[], file)?;
    Ok(Reader {
        name,
        being_read,
        number: 0,
        extent: Extent::Whole,
        left: MOST_INCLUDES,
    })
}

/// Before the first statement.
fn nothing_yet(alloc: Global, file: &Name) -> Result<Unrolled, Memory>
    ensures { IfOk result (λ unrolled. unrolled ≡ unrolling.nothing_yet file.now) }
{
    let files = with_name(alloc, &[], file)?;
    Ok(Unrolled {
        files,
        steps: List::new(alloc),
        stop: None,
    })
}

/// The statements of a source with the files that it includes read in place (the guide's section 2.1.4), up to the first
/// refusal. The source is the file of this name, and these are the trees of its blocks.
///
/// A `machine` statement holds up to the next one of its file, also in later blocks. An `include` reads the statements of
/// the machine that it names, or of the current one, where the file has them; all others there are dropped, and so are the
/// `machine` and `write` statements of an included file. A name is looked up in the folder of the including file unless it
/// begins with `/`, and names are compared as they are looked up; one that is not UTF-8 is missing without a call of the
/// store. Files are numbered from 0 in order of first reading.
///
/// What ends the statements: F4 at a statement before any `machine` of its file. At an `include`, in this order: F17, where
/// the file is among those being read, and L2, where it would be read more than 16 deep; then `Missing` or `StoreFailed`;
/// then what the file itself has, L1 at 1:1, then F2 and F19, then F1 and F7, then F3, F10, F11 and L3, each step over the
/// whole file; then F4, where the machine that the `include` names is absent from the file; then what its statements bring.
///
/// `StoreFailed` comes only where the store's count of faults rose. The store holds what it held. The error is want of
/// memory, and nothing else.
pub fn unroll<S: Store>(
    alloc: Global,
    blocks: List<Syntax>,
    file: &Name,
    store: &mut S,
) -> Result<Unrolled, Memory>
    ensures unrolled { IfOk result (λ unrolled. unrolling.Unrolls (S.held store.old) file.now blocks unrolled) }
    // Where the store tells what it holds, there is one such answer but for a failure of the store.
    ensures only { IfOk result (λ unrolled. unrolling.OnlyEnd (S.held store.old) file.now blocks unrolled) }
    ensures same { S.held store.new ≡ S.held store.old }
    ensures cause { HasCause (S.faults store.old) (S.faults store.new) (EndsInFailure result) }
{
    let reader = source_reader(alloc, file)?;
    let mut unrolled = nothing_yet(alloc, file)?;
    let queue = queue_of(alloc, blocks)?;
    follow(alloc, &reader, queue, &mut unrolled, store)?;
    Ok(unrolled)
}

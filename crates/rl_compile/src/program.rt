// What the program `ragel` does.
ghost use Rattle.std.specs.Prelude.{◌≡◌, ◌++◌, IfOk, string_bytes};
ghost use Rattle.rl_words.specs.Told.{texts, compile_told};
ghost use Rattle.rl_compile.specs.Compiles.{Ends, EndsWith, IsComplete};
ghost use Rattle.rl_compile.specs.Compiles.{out_name as out_name_of, outside as outside_of, stem as stem_of};
ghost use Rattle.rl_compile.specs.Reads.{Asks, EndsCompiling, WritesOut, refusal_by as refused_by};

use crate::fault::CompileFault;
use crate::printed::printed_source;
use crate::source::name_of;
use rl_ends::{Refusal, status_for, tell};
use rl_io::{Sink, Store, StoreFault};
use rl_types::{Memory, Status, Text};
use rl_words::{CompileWords, WordsFault, compile_words};
use std::alloc::Global;

/// How the refusal of a source ends a compilation.
fn refusal_by(fault: CompileFault) -> Refusal
    ensures { result ≡ refused_by fault }
{
    match fault {
        CompileFault::Fault(fault, file) => Refusal::Fault(fault, file),
        CompileFault::Limit(limit, file) => Refusal::Limit(limit, file),
        CompileFault::Missing(file) => Refusal::Missing(file),
        CompileFault::StoreFailed(file) => Refusal::StoreFailed(file),
        CompileFault::Memory => Refusal::Memory,
    }
}

/// The words as `str`s.
fn strs<'a>(alloc: Global, words: &'a [Text]) -> Result<Vec<&'a str>, Memory>
    ensures { IfOk result (λ v. texts v.items ≡ words.now) }
{
    let mut found = Vec::new(alloc);
    for word in words {
        if found.push(word.as_str()).is_err() {
            return Err(Memory);
        }
    }
    Ok(found)
}

/// What the words ask for.
fn asked<'a>(alloc: Global, words: &'a [&'a str]) -> Result<CompileWords<'a>, WordsFault>
    ensures { Asks (texts words.now) result }
{
    match compile_words(alloc, words) {
        Ok(asked) => {
            if asked.certify {
                return Err(WordsFault::Usage);
            }
            Ok(asked)
        }
        Err(fault) => Err(fault),
    }
}

/// A source's name without a final `.rl`.
fn stem(name: &str) -> &str
    ensures { result.now ≡ stem_of name.now }
{
    match name.strip_suffix(".rl") {
        Some(stem) => stem,
        None => name,
    }
}

/// Two texts in a row.
fn joined(alloc: Global, first: &str, second: &str) -> Result<String, Memory>
    ensures { IfOk result (λ text. string_bytes text ≡ first.now ++ second.now) }
{
    let mut text = String::new(alloc);
    if text.push_str(first).is_err() {
        return Err(Memory);
    }
    match text.push_str(second) {
        Ok(()) => Ok(text),
        Err(_) => Err(Memory),
    }
}

/// The name of the printed file.
fn out_name(alloc: Global, asked: CompileWords<'_>) -> Result<String, Memory>
    ensures { IfOk result (λ name. string_bytes name ≡ out_name_of (compile_told asked.entry)) }
{
    match asked.out {
        Some(out) => joined(alloc, out, ""),
        None => joined(alloc, stem(asked.spec), ".c"),
    }
}

/// Writes the printed file.
fn write_out<S: Store>(
    alloc: Global,
    name: &str,
    text: &[u8],
    store: &mut S,
) -> Result<(), CompileFault>
    ensures { WritesOut (S.held store.old) (S.held store.new) name.now text.now
        (S.faults store.old) (S.faults store.new) result }
{
    let Ok(file) = name_of(alloc, name.as_bytes()) else {
        return Err(CompileFault::Memory);
    };
    match store.write(name, text) {
        Ok(()) => Ok(()),
        Err(StoreFault::Missing) => unreachable!(),
        Err(StoreFault::Failed) => Err(CompileFault::StoreFailed(file)),
        Err(StoreFault::Memory) => Err(CompileFault::Memory),
    }
}

/// The compilation that is asked for.
fn compile_asked<S: Store>(
    alloc: Global,
    asked: CompileWords<'_>,
    store: &mut S,
) -> Result<(), CompileFault>
    ensures { EndsCompiling (outside_of (S.held store.old) (S.held store.new) (S.faults store.old) (S.faults store.new))
        (compile_told asked.entry) result }
{
    let text = match printed_source(alloc, asked.spec, asked.marked, store) {
        Ok(text) => text,
        Err(fault) => return Err(fault),
    };
    match out_name(alloc, asked) {
        Ok(name) => write_out(alloc, name.as_str(), &text, store),
        Err(_) => Err(CompileFault::Memory),
    }
}

/// The compilation up to its end.
fn run<S: Store>(alloc: Global, words: &[Text], store: &mut S) -> Result<(), Refusal>
    ensures { Ends (outside_of (S.held store.old) (S.held store.new) (S.faults store.old) (S.faults store.new))
        words.now result }
{
    let Ok(strs) = strs(alloc, words) else {
        return Err(Refusal::Memory);
    };
    match asked(alloc, &strs) {
        Ok(asked) => match compile_asked(alloc, asked, store) {
            Ok(()) => Ok(()),
            Err(fault) => Err(refusal_by(fault)),
        },
        Err(WordsFault::Usage) => Err(Refusal::Usage),
        Err(WordsFault::Memory) => Err(Refusal::Memory),
    }
}

/// All that the program `ragel` does: it compiles a source, and writes the printed file to the store by one call at the
/// end. The words are `[-C] [-L] [-T 0] [-m] [-l] [-e] [-o OUT] SPEC` (the guide's section 2.1.8 and this profile): SPEC is
/// the name of the source, and OUT that of the printed file; without it, it is SPEC with a final `.rl` replaced by `.c`, or
/// with `.c` added. `-L` leaves out `#line`. The other options change nothing.
///
/// - `Done`: OUT holds what is printed for the source, each block being replaced by the texts of its `write` statements.
///   The tables of each machine make the runs that its expressions make. Those of a machine with `write data` are read
///   back from OUT by the machine's name.
/// - `Usage`: the words have not this form. The line on `err` is `usage`.
/// - `Source`: the source has a fault, or a file that it includes, or a node of a machine with a `write` statement; the
///   first is named with its file and its place, as in `NAME:1:24: F3 syntax`.
/// - `Limit`: the source passes a limit; the first is named, as in `NAME:1:24: L6 configurations`.
/// - `Outside`: the source or a file that it includes is in no file (`NAME: missing`), or the store failed in this call,
///   to read a file or to write OUT (`NAME: store failed`).
/// - `Memory`: want of memory (`out of memory`). It may come in place of any other status.
///
/// Where the store tells what it holds and does not fail, the status and its line are those that are due, or `Memory`.
/// Other names than OUT hold what they held, and so does OUT at each status but `Done`, and `Outside` where the store
/// failed to write it. Nothing is written to `out`. What happens to `err` changes no status.
pub fn compile<S: Store, O: Sink, E: Sink>(
    alloc: Global,
    words: &[Text],
    store: &mut S,
    out: &mut O,
    err: &mut E,
) -> Status
    ensures ends { EndsWith (outside_of (S.held store.old) (S.held store.new) (S.faults store.old) (S.faults store.new))
        words.now (E.written err.old) (E.written err.new) (E.faults err.old) (E.faults err.new) result }
    ensures complete { IsComplete
        (outside_of (S.held store.old) (S.held store.new) (S.faults store.old) (S.faults store.new)) words.now
        (E.written err.old) (E.written err.new) (E.faults err.old) (E.faults err.new) result }
    ensures silent { (O.written out.new ≡ O.written out.old) × (O.faults out.new ≡ O.faults out.old) }
{
    let _ = out;
    let end = run(alloc, words, store);
    let _told = tell(alloc, &end, err);
    status_for(&end)
}

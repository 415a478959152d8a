// All that the program does: what its words say, up to its end, and what is told of it.
ghost use Rattle.std.specs.Prelude.{◌≡◌, Some, IfOk, IfErr};
ghost use Rattle.rl_io.specs.Outside.{KeepsOthers};
ghost use Rattle.rl_words.specs.Runs.{run_of};
ghost use Rattle.rl_words.specs.Told.{run_told, text_in};
ghost use Rattle.ragel_run.specs.Ends.{Answers, Ends, EndsReplay, EndsTelling, outside as outside_of};
ghost use Rattle.ragel_run.specs.Made.{IsCounted};
ghost use Rattle.ragel_run.specs.Reads.{GivesDue, GivesLines, job_of};
ghost use Rattle.ragel_run.specs.Streamed.{input_of};

use crate::made::run_made;
use crate::outside::{script_under, write_lines};
use crate::streamed::run_input;
use crate::tables::read_machine;
use crate::upgrade::upgrade_file;
use crate::words::words_of;
use rl_ends::{Refusal, status_for, tell};
use rl_io::{Sink, SinkFault, Source, Store};
use rl_playback::lines_of_script;
use rl_run::Settings;
use rl_tables::Tables;
use rl_types::{List, Status, Text};
use rl_words::{Replay, RunWords, WordsFault, run_words};
use std::alloc::Global;

// What tables write for the script under a name.
fn play<S: Store>(
    alloc: Global,
    tables: &Tables,
    settings: Settings,
    script_name: &str,
    store: &mut S,
) -> Result<List<u8>, Refusal>
    ensures gives { GivesLines (S.held store.old) script_name.now tables.now settings (S.faults store.old) (S.faults store.new) result }
    ensures same { S.held store.new ≡ S.held store.old }
{
    let script = match script_under(alloc, script_name, tables, store) {
        Ok(script) => script,
        Err(refusal) => return Err(refusal),
    };
    match lines_of_script(alloc, tables, settings, &script) {
        Ok(lines) => Ok(List::from_vec(lines)),
        Err(_) => Err(Refusal::Memory),
    }
}

// The lines that are due for the two files.
fn lines_for<S: Store>(alloc: Global, job: &Replay<'_>, store: &mut S) -> Result<List<u8>, Refusal>
    ensures gives { GivesDue (S.held store.old) (job_of job.now) (S.faults store.old) (S.faults store.new) result }
    ensures same { S.held store.new ≡ S.held store.old }
{
    let tables = match read_machine(alloc, job.machine, job.spec, store) {
        Ok(tables) => tables,
        Err(refusal) => return Err(refusal),
    };
    play(alloc, &tables, job.settings, job.script, store)
}

// The replay up to its end.
fn replay_files<S: Store, O: Sink>(
    alloc: Global,
    job: &Replay<'_>,
    store: &mut S,
    out: &mut O,
) -> Result<(), Refusal>
    ensures ends { EndsReplay (outside_of (S.held store.old) (S.held store.new) (S.faults store.old) (S.faults store.new) (O.written out.old) (O.written out.new) (O.faults out.old) (O.faults out.new)) result (job_of job.now) }
    ensures same { S.held store.new ≡ S.held store.old }
{
    match lines_for(alloc, job, store) {
        Ok(lines) => write_lines(lines.as_slice(), out),
        Err(refusal) => Err(refusal),
    }
}

// What is done for a form of words, up to its end.
fn run_form<S: Store, I: Source, O: Sink>(
    alloc: Global,
    form: RunWords<'_>,
    store: &mut S,
    input: &mut I,
    out: &mut O,
) -> Result<(), Refusal>
    requires counted { IsCounted (run_told form) }
    ensures { Ends (outside_of (S.held store.old) (S.held store.new) (S.faults store.old) (S.faults store.new) (O.written out.old) (O.written out.new) (O.faults out.old) (O.faults out.new)) (input_of (I.left input.old) (I.left input.new) (I.faults input.old) (I.faults input.new)) (Some (run_told form.entry)) result }
{
    match form {
        RunWords::Replay(job) => replay_files(alloc, &job, store, out),
        RunWords::Upgrade(machine, new_name, spec) => {
            upgrade_file(alloc, machine, new_name, spec, store)
        }
        RunWords::Stream(spec, entry) => run_input(alloc, spec, entry, store, input, out),
        RunWords::Make(lines, spec) => run_made(alloc, lines, spec, store, out),
    }
}

// What is done for the words, up to its end.
fn run<S: Store, I: Source, O: Sink>(
    alloc: Global,
    words: &[Text],
    store: &mut S,
    input: &mut I,
    out: &mut O,
) -> Result<(), Refusal>
    ensures { Ends (outside_of (S.held store.old) (S.held store.new) (S.faults store.old) (S.faults store.new) (O.written out.old) (O.written out.new) (O.faults out.old) (O.faults out.new)) (input_of (I.left input.old) (I.left input.new) (I.faults input.old) (I.faults input.new)) (run_of words.now) result }
{
    let Ok(words) = words_of(alloc, words) else {
        return Err(Refusal::Memory);
    };
    match run_words(alloc, words.as_slice()) {
        Ok(form) => run_form(alloc, form, store, input, out),
        Err(WordsFault::Usage) => Err(Refusal::Usage),
        Err(WordsFault::Memory) => Err(Refusal::Memory),
    }
}

// The whole run, and what the error output answered to the line of its end.
fn run_telling<S: Store, I: Source, O: Sink, E: Sink>(
    alloc: Global,
    words: &[Text],
    store: &mut S,
    input: &mut I,
    out: &mut O,
    err: &mut E,
) -> (Status, Result<(), SinkFault>)
    ensures { EndsTelling (outside_of (S.held store.old) (S.held store.new) (S.faults store.old) (S.faults store.new) (O.written out.old) (O.written out.new) (O.faults out.old) (O.faults out.new)) (input_of (I.left input.old) (I.left input.new) (I.faults input.old) (I.faults input.new)) (run_of words.now)
        (E.written err.old) (E.written err.new) (E.faults err.old) (E.faults err.new) result.0 result.1 }
{
    let end = run(alloc, words, store, input, out);
    let told = tell(alloc, &end, err);
    (status_for(&end), told)
}

/// All that the program `ragel-run` does: it takes its words, does what they say, and answers with its status. The options
/// may stand before, between and behind the other words (this profile).
///
/// - `[--machine NAME] [--stack N] [--look N] [--token N] SPEC SCRIPT` replays the script and prints the lines of its
///   sessions on `out`. SPEC is a source, or a printed file where its name ends in `.c`. The machine that runs is the one of
///   this name, or the first of the source, or the one whose section stands first in the printed file. A session starts at
///   the entry that its opening names, or at `main`, or else at the first. Its bounds are a stack of 64 entries, 8
///   characters to go back by, and tokens of at most 65,536 characters, where no option says otherwise: `--stack` 0 to
///   1,024, `--look` 1 to 4,096, `--token` 1 to 1,048,576.
/// - `[--machine NAME] --upgrade OUT SPEC.c` writes the section of this machine, or the first, of the printed file in version
///   2 to the file OUT, in one call of the store.
/// - `--make N SPEC` runs the first machine of SPEC, from its start entry on and with the default settings, over an input of N
///   lines that is made, 1 to 1,000,000, in pieces of 1 to 7 bytes, and ends it. It prints one line on `out`: `make N: B bytes,
///   P pieces, T tokens, VERDICT`. B and P count the whole input.
/// - `SPEC --input ENTRY` runs one session, which is named `input`, of the first machine of SPEC over the standard input, from
///   this entry on and with the default settings, and ends it. The input is read in blocks of at most 4,096 bytes, and the
///   lines of each go out before the next is read; they do not depend on how it is cut into blocks.
///
/// The statuses:
///
/// - `Done`: all files were read. Of a replay `out` gained exactly the lines that the source's expressions prescribe for the
///   script, or that the machine of the printed tables makes; of an upgrade OUT holds exactly the new section; of an
///   input that is made `out` gained exactly its line; of the standard input, which was read to its end, `out` gained
///   exactly the lines of a script that opens `input`, feeds it all the bytes at once, and ends it.
/// - `Usage`: the words have none of these forms. The line on `err` is `usage`.
/// - `Source`: the source has a fault, or a file that it includes; the first is named with its file and its place, as in
///   `NAME:1:24: F3 syntax`. A named machine that is absent is `F4 no machine`, one without an instantiation
///   `F18 no instance`, both at 1:1.
/// - `Limit`: the source passes a limit; the first is named, as in `NAME:1:152: L3 parentheses`. Or the standard input has more
///   than 1,099,511,627,776 bytes (`input:1:1: L12 input`).
/// - `Tables`: the printed file has no section of the machine (`NAME: no section`), or the first line of the section or the
///   first element of its arrays that is not right is named, as in `NAME:4: bad text` and `NAME: bad value in trans_targs
///   at 1`.
/// - `Script`: the first line of the script that has none of the forms is named, as in `NAME:2: bad line`; where all have
///   one, the first with another fault: `twice`, `no session`, `no entry`, `no name` or `full`. Or the machine has no ENTRY
///   (`input:1: no entry`).
/// - `Outside`: the source, a file that it includes, the printed file or the script is in no file (`NAME: missing`), or the
///   store, the input or the output failed in this call (`NAME: store failed`, `input failed`, `output failed`).
/// - `Memory`: want of memory (`out of memory`). It may come in place of any other status.
///
/// Nothing is written to `out` before the run, and a failed output has a prefix of the lines. Only an upgrade changes the
/// store. It leaves every name but OUT as it was, and OUT too unless the store failed to write it. Only `--input` reads the
/// input: where this failed, `out` gained the lines of the open session with all bytes that were read, and for want of memory
/// and past the limit those of whole blocks. What happens to `err` changes no status.
pub fn replay<S: Store, I: Source, O: Sink, E: Sink>(
    alloc: Global,
    words: &[Text],
    store: &mut S,
    input: &mut I,
    out: &mut O,
    err: &mut E,
) -> Status
    ensures { Answers (outside_of (S.held store.old) (S.held store.new) (S.faults store.old) (S.faults store.new) (O.written out.old) (O.written out.new) (O.faults out.old) (O.faults out.new)) (input_of (I.left input.old) (I.left input.new) (I.faults input.old) (I.faults input.new)) (run_of words.now)
        (E.written err.old) (E.written err.new) (E.faults err.old) (E.faults err.new) result }
{
    let ended = run_telling(alloc, words, store, input, out, err);
    ended.0
}

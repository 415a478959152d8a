// The line that tells of the run over a made input.
ghost use Rattle.std.specs.Prelude.{◌≡◌, ◌≤◌, ◌<◌, ◌^◌, ◌++◌, [], true, false, length, Some, IfOk, OnOk, decimal};
ghost use Rattle.rl_replay.specs.Lines.{verdict_word};
ghost use Rattle.rl_playback.specs.Deeds as deeds;
ghost use Rattle.rl_playback.specs.Defaults as defaults;
ghost use Rattle.rl_made.specs.Made.{made_text, pieces_of, told_text, tokens_over, verdict_over};
ghost use Rattle.rl_made.specs.Stands.{Stands};

use crate::feed::{take_end, take_pieces};
use crate::input::{made_input, push, push_number};
use crate::tally::Tally;
use rl_log::Names;
use rl_run::{Settings, Verdict};
use rl_sessions::Sessions;
use rl_tables::Tables;
use rl_types::Memory;
use std::alloc::Global;

fn verdict_text(verdict: Verdict) -> &'static [u8]
    ensures { result.now ≡ verdict_word verdict }
{
    match verdict {
        Verdict::Final => b"final",
        Verdict::Partial => b"partial",
        Verdict::Error => b"error",
    }
}

fn default_settings() -> Settings
    ensures { result ≡ defaults.default_settings }
{
    Settings {
        stack: 64,
        look: 8,
        token_max: 65536,
    }
}

// What is told of a run.
#[derive(Drop)]
struct Told {
    pieces: u64,
    tokens: u64,
    verdict: Verdict,
}

// The one session, at the start entry of the tables.
fn start<'a>(
    alloc: Global,
    tables: &'a Tables,
    name: &[u8],
    tally: &Tally<'_>,
) -> Result<Sessions<'a>, Memory>
    requires tables { tally.now.names.tables.now ≡ tables.now }
    requires none { tally.now.tokens ≡ Some 0 }
    ensures { IfOk result (λ sessions. Stands tables.now defaults.default_settings name.now false [] tally.now sessions) }
{
    let _ = tally;
    // Arrays of tables are valid.
    let _arrays = tables.arrays();
    let entry = tables.start_entry();
    let mut sessions = Sessions::new(alloc, tables, default_settings());
    match sessions.start(alloc, name, entry) {
        Ok(()) => Ok(sessions),
        Err(_) => Err(Memory),
    }
}

fn verdict_of(sessions: &Sessions<'_>, name: &[u8]) -> Verdict
    ensures { result ≡ deeds.verdict_of name.now sessions.now }
{
    sessions.verdict(name).unwrap_or(Verdict::Partial)
}

// The verdict of the session behind its end.
fn verdict_behind(
    sessions: &Sessions<'_>,
    name: &[u8],
    tables: &Tables,
    tally: &Tally<'_>,
    input: &[u8],
) -> Verdict
    requires { Stands tables.now defaults.default_settings name.now true input.now tally.now sessions.now }
    ensures { result ≡ verdict_over tables.now defaults.default_settings input.now }
{
    let _ = tables;
    let _ = tally;
    let _ = input;
    verdict_of(sessions, name)
}

// Runs the session over an input in pieces, and ends it.
fn run_over(alloc: Global, tables: &Tables, name: &[u8], input: &[u8]) -> Result<Told, Memory>
    requires small { length input.now < 2 ^ 63 }
    ensures pieces { IfOk result (λ told. told.pieces ≡ length (pieces_of input.now)) }
    ensures tokens { IfOk result (λ told. told.tokens ≡ tokens_over tables.now defaults.default_settings input.now) }
    ensures verdict { IfOk result (λ told. told.verdict ≡ verdict_over tables.now defaults.default_settings input.now) }
{
    let mut tally = Tally {
        names: Names { tables },
        tokens: Some(0),
    };
    let mut sessions = start(alloc, tables, name, &tally)?;
    let pieces = take_pieces(&mut tally, &mut sessions, name, input);
    take_end(&mut tally, &mut sessions, name, input);
    let verdict = verdict_behind(&sessions, name, tables, &tally, input);
    match tally.tokens {
        Some(tokens) => Ok(Told {
            pieces,
            tokens,
            verdict,
        }),
        None => Err(Memory),
    }
}

// Adds a number and the words behind it.
fn push_counted(out: &mut Vec<u8>, number: u64, words: &[u8]) -> Result<(), Memory>
    ensures { OnOk result (out.new.items ≡ out.old.items ++ (decimal number ++ words.now)) }
{
    push_number(out, number)?;
    push(out, words)
}

// The line that tells of a run.
fn text_of(alloc: Global, lines: u32, bytes: usize, told: &Told) -> Result<Vec<u8>, Memory>
    ensures { IfOk result (λ v. v.items ≡ told_text lines bytes told.now.pieces told.now.tokens told.now.verdict) }
{
    let mut out = Vec::new(alloc);
    push(&mut out, b"make ")?;
    push_counted(&mut out, u64::from(lines), b": ")?;
    push_counted(&mut out, bytes as u64, b" bytes, ")?;
    push_counted(&mut out, told.pieces, b" pieces, ")?;
    push_counted(&mut out, told.tokens, b" tokens, ")?;
    push(&mut out, verdict_text(told.verdict))?;
    push(&mut out, b"\n")?;
    Ok(out)
}

/// The line `make N: B bytes, P pieces, T tokens, VERDICT` of the run of the tables' start entry, with the default
/// settings, over the made input of so many lines, which is fed in pieces of 1 to 7 bytes and ended (this profile). B
/// and P count the whole input, also where the session stops early. `Memory` where memory is wanting, and where the
/// tokens are too many for 64 bits.
pub fn line_of_made(alloc: Global, tables: &Tables, lines: u32) -> Result<Vec<u8>, Memory>
    requires low { 1 ≤ lines }
    requires high { lines ≤ 1000000 }
    ensures { IfOk result (λ v. v.items ≡ made_text tables.now defaults.default_settings lines) }
{
    let made = made_input(alloc, lines)?;
    let input = made.as_slice();
    let told = run_over(alloc, tables, b"made", input)?;
    let text = text_of(alloc, lines, input.len(), &told)?;
    Ok(text)
}

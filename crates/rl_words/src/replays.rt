// What the words of `ragel-run` say.
ghost use Rattle.std.specs.Prelude.{◌≡◌, Some, option_map, IfOk, IfErr};
ghost use Rattle.rl_words.specs.Runs as runs;
ghost use Rattle.rl_words.specs.Runs.{has_no_settings, is_printed, run_given, run_of};
ghost use Rattle.rl_words.specs.Told.{texts, given_told, run_told, RefusesWords};

use crate::command::replayer;
use crate::fault::{WordsFault, matched};
use crate::given::{Given, all_given};
use crate::numbers::settings_of;
use rl_run::Settings;
use rl_script::number_of;
use std::alloc::Global;

/// A script that is to be replayed: the form `[--machine NAME] [--stack N] [--look N] [--token N] SPEC SCRIPT` (this
/// profile).
#[derive(Clone, Copy, Debug)]
pub struct Replay<'a> {
    /// The machine that runs; without it the first one of the file.
    pub machine: Option<&'a str>,
    /// The bounds of each session: 64 entries of the stack, 8 characters to go back by and 65,536 characters of a token,
    /// where no option says otherwise.
    pub settings: Settings,
    /// The name of the source, or of the printed file.
    pub spec: &'a str,
    /// The name of the script.
    pub script: &'a str,
}

/// What `ragel-run` is to do (this profile).
#[derive(Clone, Copy, Debug)]
pub enum RunWords<'a> {
    /// A script is replayed.
    Replay(Replay<'a>),
    /// `SPEC --input ENTRY`: a session that begins at this entry of the file's machine reads the standard input.
    Stream(&'a str, &'a str),
    /// `--make N SPEC`: so many lines are made, 1 to 1,000,000, and the file's machine runs over them.
    Make(u64, &'a str),
    /// `[--machine NAME] --upgrade OUT SPEC.c`: the section of this machine, or the first one of the printed file, goes to
    /// the file OUT in version 2. The machine, then OUT, then SPEC.
    Upgrade(Option<&'a str>, &'a str, &'a str),
}

// Whether no setting is given.
fn has_no_settings(given: &Given<'_>) -> bool
    ensures { result ≡ has_no_settings (given_told given.now) }
{
    !(given.stack.is_some() || given.look.is_some() || given.token.is_some())
}

// Whether the name is one of a printed file.
fn is_printed(name: &str) -> bool
    ensures { result ≡ is_printed name.now }
{
    name.as_bytes().ends_with(b".c")
}

// A script over a file.
fn to_replay<'a>(given: &Given<'a>, spec: &'a str, script: &'a str) -> Option<RunWords<'a>>
    ensures { option_map run_told result ≡ runs.replay (given_told given.now) spec.now script.now }
{
    let settings = settings_of(given)?;
    Some(RunWords::Replay(Replay {
        machine: given.machine,
        settings,
        spec,
        script,
    }))
}

// The standard input.
fn to_stream<'a>(given: &Given<'a>, spec: &'a str, entry: &'a str) -> Option<RunWords<'a>>
    ensures { option_map run_told result ≡ runs.stream (given_told given.now) spec.now entry.now }
{
    if has_no_settings(given) && given.machine.is_none() {
        Some(RunWords::Stream(spec, entry))
    } else {
        None
    }
}

// An input that is made.
fn to_make<'a>(given: &Given<'a>, spec: &'a str, lines: &str) -> Option<RunWords<'a>>
    ensures { option_map run_told result ≡ runs.make (given_told given.now) spec.now lines.now }
{
    if has_no_settings(given) && given.machine.is_none() {
        let lines = number_of(1, 1_000_000, lines.as_bytes())?;
        Some(RunWords::Make(lines, spec))
    } else {
        None
    }
}

// A section in version 2.
fn to_upgrade<'a>(given: &Given<'a>, spec: &'a str, out: &'a str) -> Option<RunWords<'a>>
    ensures { option_map run_told result ≡ runs.upgrade (given_told given.now) spec.now out.now }
{
    if has_no_settings(given) && is_printed(spec) {
        Some(RunWords::Upgrade(given.machine, out, spec))
    } else {
        None
    }
}

// What is said by all that was given.
fn run_given<'a>(given: &Given<'a>) -> Option<RunWords<'a>>
    ensures { option_map run_told result ≡ run_given (given_told given.now) }
{
    match (
        given.input,
        given.make,
        given.upgrade,
        given.spec,
        given.script,
    ) {
        (None, None, None, Some(spec), Some(script)) => to_replay(given, spec, script),
        (Some(entry), None, None, Some(spec), None) => to_stream(given, spec, entry),
        (None, Some(lines), None, Some(spec), None) => to_make(given, spec, lines),
        (None, None, Some(out), Some(spec), None) => to_upgrade(given, spec, out),
        _ => None,
    }
}

/// What the words behind the program's name say to `ragel-run`. The options may stand before, between and behind the other
/// words, as `--NAME VALUE` or `--NAME=VALUE`, each at most once. A number is `0` or decimal digits without a leading
/// zero: `--stack` 0 to 1,024, `--look` 1 to 4,096, `--token` 1 to 1,048,576 (this profile).
///
/// The error is `Usage` exactly where the words have none of the four forms, and `Memory` for want of memory.
#[tactic(auto, using(crate::proofs::MatchLaws::run_refused))]
pub fn run_words<'a>(alloc: Global, words: &'a [&'a str]) -> Result<RunWords<'a>, WordsFault>
    ensures said { IfOk result (λ r. run_of (texts words.now) ≡ Some (run_told r)) }
    ensures refused { IfErr result (RefusesWords (run_of (texts words.now))) }
{
    let Ok(command) = replayer(alloc) else {
        return Err(WordsFault::Memory);
    };
    match matched(command, words) {
        Ok(matches) => match run_given(&all_given(&matches)) {
            Some(run) => Ok(run),
            None => Err(WordsFault::Usage),
        },
        Err(fault) => Err(fault),
    }
}

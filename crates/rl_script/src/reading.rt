// The reading of a script.
ghost use Rattle.std.specs.Prelude.{◌≡◌, ◌≤◌, length, Ok, Result, List, IfOk, IfErr, MatchResult};
ghost use Rattle.rl_replay.specs.declared.script.Line.{Line};
ghost use Rattle.rl_replay.specs.declared.script.ScriptFault.{ScriptFault};
ghost use Rattle.rl_replay.specs.Script.{says_nothing, read_script};
ghost use Rattle.rl_replay.specs.Sessions.{fed};
ghost use Rattle.rl_script.specs.Faults.{IsFaultOf};
ghost use Rattle.rl_script.specs.Reading.{behind, in_front};

use crate::events::event_of;
use crate::parts::next_line;
use rl_replay::{Line, Script, ScriptFault};
use rl_types::List as Items;
use std::alloc::Global;

// Whether a line is empty, or a comment.
fn says_nothing(line: &[u8]) -> bool
    ensures { result ≡ says_nothing line.now }
{
    match line {
        [] => true,
        [first, ..] => *first == b'#',
    }
}

// Adds the event of a line, where it says something.
fn add_line(
    alloc: Global,
    lines: &mut Items<Line>,
    number: u64,
    line: &[u8],
) -> Result<(), ScriptFault>
    ensures { (rest : Result (List Line) ScriptFault) → MatchResult result
        (λ _. behind lines.old (in_front number line.now rest) ≡ behind lines.new rest)
        (IsFaultOf (behind lines.old (in_front number line.now rest))) }
{
    if says_nothing(line) {
        return Ok(());
    }
    let Ok(event) = event_of(alloc, line) else {
        return Err(ScriptFault::Memory);
    };
    let Some(event) = event else {
        return Err(ScriptFault::BadLine { line: number });
    };
    match lines.push(Line { number, event }) {
        Ok(()) => Ok(()),
        Err(_) => Err(ScriptFault::Memory),
    }
}

fn read_lines(alloc: Global, text: &[u8]) -> Result<Items<Line>, ScriptFault>
    ensures { MatchResult result (λ lines. read_script text.now ≡ Ok lines) (IsFaultOf (read_script text.now)) }
{
    let _room = text.len() + 1;
    let mut lines = Items::new(alloc);
    let mut rest = text;
    let mut number: u64 = 1;
    'lines: while let Some((line, behind)) = next_line(rest) {
        add_line(alloc, &mut lines, number, line)?;
        rest = behind;
        number += 1;
    }
    Ok(lines)
}

/// Reads the script that a text is: its lines that say something, in order, each with its number from 1. A line ends at
/// a newline, which the last may lack; a line that is empty or begins with `#` says nothing; words have one blank between
/// them. The lines are `open S`, `open S ENTRY`, `piece S "BYTES"`, `end S`, `pick S ACTION N LIST`, `say S CONDITION N yes`
/// and `say S CONDITION N no`. S has 1 to 32 letters, digits, `_` or `-`; ENTRY, ACTION and CONDITION have a byte or more; N
/// and the numbers of LIST are decimal without leading zeros, from 1 to 4,294,967,295; LIST is `-`, or one to four numbers of
/// statements with commas between, each of which may be followed by `=` and a goal of 64 bits with a sign; BYTES has the
/// escapes `\n`, `\r`, `\t`, `\0`, `\\`, `\"` and `\xHH`, and every other byte but the quote and the backslash stands for
/// itself (this profile).
///
/// `BadLine` names the first line, from 1, that has none of the forms. The only other answer is `Memory`.
pub fn read_script(alloc: Global, text: &[u8]) -> Result<Script, ScriptFault>
    ensures ok { IfOk result (λ s. read_script text.now ≡ Ok s.lines) }
    ensures fault { IfErr result (IsFaultOf (read_script text.now)) }

    // All bytes that are fed stand in the text.
    ensures small { IfOk result (λ s. length (fed s.lines) ≤ length text.now) }
{
    match read_lines(alloc, text) {
        Ok(lines) => Ok(Script { lines }),
        Err(fault) => Err(fault),
    }
}

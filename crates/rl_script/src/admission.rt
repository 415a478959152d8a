// Whether tables admit a script.
ghost use Rattle.std.specs.Prelude.{◌≡◌, ◌⊎◌, Some, None, MatchResult};
ghost use Rattle.rl_replay.specs.declared.script.ScriptFault.TheVariants.{Memory};
ghost use Rattle.rl_replay.specs.Sessions.{first_fault};
ghost use Rattle.rl_script.specs.TableNames.{names_in};

use crate::course::{before_lines, known_of, take};
use rl_replay::{Script, ScriptFault};
use rl_tables::Tables;
use std::alloc::Global;

/// Whether the sessions and the names of a script's lines are right for these tables. The fault is that of the first line
/// which has one, and of several at that line the first in this order: `Twice`, a session is opened a second time, or a
/// call answered a second time; `NoSession`, a piece or an end of a session that is not live there, or an answer for a
/// session that no line opens; `NoEntry`; `NoName`, an action or a condition that the tables do not have; `Full`, a session
/// is opened while 1,024 are live. A session is live from its opening to its end (this profile). `BadLine` never comes; the
/// only other answer is `Memory`.
pub fn admit(alloc: Global, script: &Script, tables: &Tables) -> Result<(), ScriptFault>
    ensures { MatchResult result
        (λ _. first_fault (names_in tables.now) script.now.lines ≡ None)
        (λ f. (f ≡ Memory) ⊎ (first_fault (names_in tables.now) script.now.lines ≡ Some f)) }
{
    let lines = script.lines.as_slice();
    let Ok(known) = known_of(alloc, lines, tables.arrays()) else {
        return Err(ScriptFault::Memory);
    };
    let mut course = before_lines(alloc);
    for line in lines {
        take(&known, &mut course, line)?;
    }
    Ok(())
}

// The Spec of one machine.
ghost use Rattle.std.specs.Prelude.{◌≡◌, map, []};
ghost use Rattle.rl_rewrite.specs.Entries.{made_of, meanings, entries, all_conditions};
ghost use Rattle.rl_resolve.specs.Descriptions.{IsSpecOf};

use rl_draft::Draft;
use rl_model::Spec;
use rl_rewrite::Rewritten;
use rl_types::{List, Name};

/// The Spec of a draft that is rewritten.
pub fn spec_of(files: List<Name>, draft: Draft, rewritten: Rewritten) -> Spec
    requires entries { map made_of rewritten.entries ≡ entries [] (meanings draft) }
    requires conditions { rewritten.conditions ≡ all_conditions [] (meanings draft) }
    ensures { IsSpecOf files draft result }
{
    let Draft {
        machine,
        alphabet,
        definitions: _,
        actions,
        frame,
        writes,
    } = draft;
    let Rewritten {
        entries,
        conditions,
    } = rewritten;
    Spec {
        machine,
        alphabet,
        entries,
        actions,
        conds: conditions,
        frame,
        writes,
        files,
    }
}

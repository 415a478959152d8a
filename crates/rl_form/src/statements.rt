// The control statements of actions.
ghost use Rattle.std.specs.Prelude.{◌≡◌};
ghost use Rattle.rl_arrays.specs.Statements as form;
ghost use Rattle.rl_model.specs.WellFormed.{outer_statements};

use rl_model::{Statement, StatementKind};

// Whether it is a transfer or a break.
fn ends_list(kind: StatementKind) -> bool
    ensures { result ≡ form.ends_list kind }
{
    matches!(
        kind,
        StatementKind::Goto | StatementKind::Call | StatementKind::Ret | StatementKind::Break
    )
}

// How many statements at the outer level there are up to the first transfer or break, with it.
pub(crate) fn outer_statements(statements: &[Statement]) -> usize
    ensures { result ≡ outer_statements statements.now }
{
    let mut count = 0;
    for s in statements {
        if !s.outer {
            continue;
        }
        count += 1;
        if ends_list(s.kind) {
            return count;
        }
    }
    count
}

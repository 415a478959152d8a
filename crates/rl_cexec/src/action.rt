//! The text of an action.
ghost use Rattle.std.specs.Prelude.{◌≡◌, IfOk};
ghost use Rattle.rl_cexec.specs.Code as code;

use crate::statements::push_action;
use rl_arrays::Arrays;
use rl_model::{ActionDef, Frame};
use rl_tables::Tables;
use rl_types::Memory;
use std::alloc::{AllocError, Global};

/// The code of an action, with its braces.
fn written(
    alloc: Global,
    from: &[u8],
    a: &Arrays,
    frame: &Frame,
    at_end: bool,
) -> Result<Vec<u8>, AllocError>
    ensures { IfOk result (λ text. text.items ≡ code.written_code a.now frame.now at_end from.now) }
{
    let mut text = Vec::new(alloc);
    push_action(&mut text, a, frame, at_end, from)?;
    Ok(text)
}

/// The code of an action as it is printed: with its braces, and with C in place of its control statements and values (the
/// guide's sections 3.4 and 6.1 to 6.3), as it stands among the actions of a transition, or in the list at the end of the
/// input (`at_end`), where statements move nothing. An `Err` is want of memory.
pub fn action_text(
    alloc: Global,
    action: &ActionDef,
    tables: &Tables,
    frame: &Frame,
    at_end: bool,
) -> Result<Vec<u8>, Memory>
    ensures { IfOk result (λ text. text.items ≡ code.action_text action.now tables.now frame.now at_end) }
{
    match written(alloc, action.code.bytes(), tables.arrays(), frame, at_end) {
        Ok(text) => Ok(text),
        Err(_) => Err(Memory),
    }
}

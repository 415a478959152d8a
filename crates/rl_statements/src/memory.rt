// What wants memory.
ghost use Rattle.std.specs.Prelude.{◌≡◌, ◌++◌, [], IfOk};
ghost use Rattle.std.specs.List.{cons_option};

use rl_code::Said;
use rl_types::{Memory, Name};
use std::alloc::Global;

/// A name of these bytes.
pub fn named(alloc: Global, bytes: &[u8]) -> Result<Name, Memory>
    ensures { IfOk result (λ name. name ≡ bytes.now) }
{
    match bytes.to_vec(alloc) {
        Ok(bytes) => Ok(Name::new(bytes)),
        Err(_) => Err(Memory),
    }
}

/// Puts what is said at the end of what is found.
pub fn put(found: &mut Vec<Said>, said: Option<Said>) -> Result<(), Memory>
    ensures { IfOk result (λ _. found.new.items ≡ found.old.items ++ cons_option said []) }
{
    match said {
        Some(said) => match found.push(said) {
            Ok(()) => Ok(()),
            Err(_) => Err(Memory),
        },
        None => Ok(()),
    }
}

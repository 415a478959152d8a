// Names of files.
ghost use Rattle.std.specs.Prelude.{◌≡◌, IfOk};

use rl_types::{Memory, Name};
use std::alloc::Global;

// A name of these bytes.
pub fn name_of(alloc: Global, bytes: &[u8]) -> Result<Name, Memory>
    ensures { IfOk result (λ name. name ≡ bytes.now) }
{
    match Vec::from_slice(alloc, bytes) {
        Ok(bytes) => Ok(Name::new(bytes)),
        Err(_) => Err(Memory),
    }
}

// The name of a file, from a word.
pub fn file_name(alloc: Global, word: &str) -> Result<Name, Memory>
    ensures { IfOk result (λ name. name ≡ word.now) }
{
    name_of(alloc, word.as_bytes())
}

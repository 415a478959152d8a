// What the words say.
ghost use Rattle.std.specs.Prelude.{◌≡◌, Some, option_map, IfOk, IfErr};
ghost use Rattle.rl_words.specs.Told.{texts};

use rl_types::{Memory, Text};
use std::alloc::Global;

// The words, as the parser of command lines takes them.
pub fn words_of<'a>(alloc: Global, words: &'a [Text]) -> Result<Vec<&'a str>, Memory>
    ensures { IfOk result (λ v. texts v.items ≡ words.now) }
{
    let mut all = Vec::new(alloc);
    for word in words {
        if all.push(word.as_str()).is_err() {
            return Err(Memory);
        }
    }
    Ok(all)
}

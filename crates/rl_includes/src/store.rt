// What the store says of a file.
ghost use Rattle.std.specs.Prelude.{◌≡◌, IfOk, Ok};
ghost use Rattle.rl_io.specs.Outside.{HasCause};
ghost use Rattle.rl_includes.specs.Answers.{Answers};

use crate::reader::Answer;
use rl_io::{Store, StoreFault};
use rl_types::{List, Memory, Name};

/// The bytes of a file, or why there are none. A name that is not UTF-8 is missing without a call of the store.
pub fn answer<S: Store>(store: &mut S, name: &Name) -> Result<Answer, Memory>
    ensures answer { IfOk result (Answers (S.held store.old) name.now) }
    ensures same { S.held store.new ≡ S.held store.old }
    ensures cause { HasCause (S.faults store.old) (S.faults store.new) (result ≡ Ok Answer.Failed) }
{
    let Ok(name) = str::from_utf8(name.bytes()) else {
        return Ok(Answer::Missing);
    };
    match store.read(name) {
        Ok(bytes) => Ok(Answer::Text(List::from_vec(bytes))),
        Err(StoreFault::Missing) => Ok(Answer::Missing),
        Err(StoreFault::Failed) => Ok(Answer::Failed),
        Err(StoreFault::Memory) => Err(Memory),
    }
}

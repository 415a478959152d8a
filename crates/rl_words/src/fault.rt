// Why words say nothing, and what the parser of command lines makes of them.
ghost use Rattle.std.specs.Prelude.{◌≡◌, true};
ghost use Rattle.clap.specs.Words.{app_of, is_simple_and_free};
ghost use Rattle.rl_words.specs.Told.{texts, IsMatched};

use clap::error::ErrorKind;
use clap::{ArgMatches, Command};

/// Why words say nothing.
#[derive(Clone, Copy, Debug, PartialEq, Eq)]
pub enum WordsFault {
    /// They have none of the forms.
    Usage,
    /// Want of memory.
    Memory,
}

// What the parser of command lines makes of the words.
pub(crate) fn matched<'a>(
    command: Command<'a>,
    words: &'a [&'a str],
) -> Result<ArgMatches<'a>, WordsFault>
    ensures { is_simple_and_free (app_of command.entry) ≡ true → IsMatched (app_of command.entry) (texts words.now) result }
{
    match command.try_get_matches_from(words) {
        Ok(matches) => Ok(matches),
        Err(error) if error.kind() == ErrorKind::OutOfMemory => Err(WordsFault::Memory),
        Err(_) => Err(WordsFault::Usage),
    }
}

// The names of sessions, in the order in which they were started.
ghost use Rattle.std.specs.Prelude.{◌≡◌, [], ◌∷◌, ◌++◌, None, position, MatchResult};
ghost use Rattle.std.specs.Str.{bytes_eq};
ghost use Rattle.rl_sessions.specs.Roll.{names_on};

use indexmap::IndexSet;
use rl_types::Memory;

// Names that differ.
pub type Roll = IndexSet<Vec<u8>>;

// The place of a name.
pub(crate) fn place_on(roll: &Roll, name: &[u8]) -> Option<usize>
    ensures { result ≡ position (bytes_eq name.now) (names_on roll.now) }
{
    roll.get_index_of(name)
}

// Puts a name that is not there behind all others.
pub(crate) fn put(roll: &mut Roll, name: Vec<u8>) -> Result<(), Memory>
    requires { position (bytes_eq name.items) (names_on roll.old) ≡ None }
    ensures { MatchResult result (λ _. names_on roll.new ≡ names_on roll.old ++ name.items ∷ []) (λ _. names_on roll.new ≡ names_on roll.old) }
{
    let Ok(_is_new) = roll.insert(name) else {
        return Err(Memory);
    };
    Ok(())
}

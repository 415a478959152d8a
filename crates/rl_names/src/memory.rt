// What wants memory, and what is refused.
ghost use Rattle.std.specs.Prelude.{◌≡◌, ◌++◌, ◌∷◌, [], MatchResult};
ghost use Rattle.rl_grammar.specs.declared.read_fault.ReadFault.TheVariants as reason;
ghost use Rattle.rl_names.specs.Leaves.{fault_at};

use rl_grammar::ReadFault;
use rl_types::{Fault, FaultKind, List, Name, Place};
use std::alloc::Global;

/// Why a source has no drafts: a fault, a limit that is passed, or want of memory.
pub type NameFault = ReadFault;

/// Puts an item at the end of a list.
pub fn push<T: Drop>(list: &mut List<T>, item: T) -> Result<(), ReadFault>
    ensures { MatchResult result (λ _. list.new ≡ list.old ++ item ∷ []) (λ e. e ≡ reason.Memory) }
{
    list.push(item).map_err(|_| ReadFault::Memory)
}

/// The name of these bytes.
pub fn name_of(alloc: Global, bytes: &[u8]) -> Result<Name, ReadFault>
    ensures { MatchResult result (λ name. name ≡ bytes.now) (λ e. e ≡ reason.Memory) }
{
    match Vec::from_slice(alloc, bytes) {
        Ok(bytes) => Ok(Name::new(bytes)),
        Err(_) => Err(ReadFault::Memory),
    }
}

/// A fault of this kind.
pub fn fault_at(kind: FaultKind, place: Place) -> ReadFault
    ensures { result ≡ fault_at kind place }
{
    ReadFault::Fault(Fault { kind, place })
}

// What wants memory.
ghost use Rattle.std.specs.Prelude.{◌≡◌, ◌++◌, ◌∷◌, [], IfOk, OnOk, OnErr};

use rl_types::{List, Memory, Name};
use std::alloc::Global;

/// Puts an item at the end of a list.
pub fn push<T: Drop>(list: &mut List<T>, item: T) -> Result<(), Memory>
    ensures ok { OnOk result (list.new ≡ list.old ++ item ∷ []) }
    ensures err { OnErr result (list.new ≡ list.old) }
{
    list.push(item).map_err(|_| Memory)
}

/// The name of these bytes.
pub fn name_of(alloc: Global, bytes: &[u8]) -> Result<Name, Memory>
    ensures { IfOk result (λ name. name ≡ bytes.now) }
{
    match Vec::from_slice(alloc, bytes) {
        Ok(bytes) => Ok(Name::new(bytes)),
        Err(_) => Err(Memory),
    }
}

/// A copy of a name.
pub fn copied(alloc: Global, name: &Name) -> Result<Name, Memory>
    ensures { IfOk result (λ copy. copy ≡ name.now) }
{
    name_of(alloc, name.bytes())
}

/// The name that is one text and then another.
pub fn joined(alloc: Global, front: &[u8], back: &[u8]) -> Result<Name, Memory>
    ensures { IfOk result (λ name. name ≡ front.now ++ back.now) }
{
    let mut bytes = Vec::new(alloc);
    if bytes.extend_from_slice(front).is_err() {
        return Err(Memory);
    }
    match bytes.extend_from_slice(back) {
        Ok(()) => Ok(Name::new(bytes)),
        Err(_) => Err(Memory),
    }
}

/// A copy of names.
fn copies(alloc: Global, names: &[Name]) -> Result<List<Name>, Memory>
    ensures { IfOk result (λ copy. copy ≡ names.now) }
{
    let mut found = List::new(alloc);
    for name in names {
        push(&mut found, copied(alloc, name)?)?;
    }
    Ok(found)
}

/// A copy of names with one more.
pub fn with_name(alloc: Global, names: &[Name], more: &Name) -> Result<List<Name>, Memory>
    ensures { IfOk result (λ copy. copy ≡ names.now ++ more.now ∷ []) }
{
    let mut found = copies(alloc, names)?;
    push(&mut found, copied(alloc, more)?)?;
    Ok(found)
}

// Places in the order in which they were found.
ghost use Rattle.std.specs.Prelude.{◌≡◌, ◌<◌, ◌≤◌, Some, IfOk, length, slice_get};
ghost use Rattle.rl_reach.specs.Places.{with_place, with_places, number_in};

use crate::place::Place;
use indexmap::IndexSet;
use rl_types::Memory;

// Puts the place behind the others, unless it is there.
pub(crate) fn add_place(places: &mut IndexSet<Place>, place: Place) -> Result<(), Memory>
    ensures { IfOk result (λ _. places.new.keys ≡ with_place places.old.keys place) }
{
    match places.insert(place) {
        Ok(_) => Ok(()),
        Err(_) => Err(Memory),
    }
}

// Puts those places behind the others that are not there.
pub(crate) fn add_places(places: &mut IndexSet<Place>, more: &[Place]) -> Result<(), Memory>
    ensures { IfOk result (λ _. places.new.keys ≡ with_places places.old.keys more.now) }
{
    for place in more {
        add_place(places, *place)?;
    }
    Ok(())
}

// The place of this index, from 0.
pub(crate) fn place_at(places: &IndexSet<Place>, i: usize) -> Place
    requires { i < length places.now.keys }
    ensures { slice_get places.now.keys i ≡ Some result }
{
    match places.get_index(i) {
        Some(place) => *place,
        None => unreachable!(),
    }
}

// The number of the place, from 1; 0 where it is not there.
pub(crate) fn number_in(places: &IndexSet<Place>, place: Place) -> u32
    requires { length places.now.keys ≤ 2147483646 }
    ensures { result ≡ number_in places.now.keys place }
{
    match places.get_index_of(&place) {
        Some(i) => i as u32 + 1,
        None => 0,
    }
}

// Places in the order of their numbers.
ghost use Rattle.std.specs.Prelude.{◌≡◌, ◌≤◌, ◌++◌, [], suc, not, IfOk, length, map};
ghost use Rattle.std.specs.List.{filter};
ghost use Rattle.rl_reach.specs.Places.{with_places, number_in};
ghost use Rattle.rl_reach.specs.Walks.{is_final, is_in_half};

use crate::lists::push;
use crate::parts::is_final;
use crate::place::Place;
use crate::places::{add_place, number_in, place_at};
use indexmap::IndexSet;
use rl_fsm::RootFsm;
use rl_types::Memory;
use std::alloc::Global;

// Whether the place is final, or whether it is not.
fn is_in_half(root: &RootFsm, fin: bool, place: Place) -> bool
    ensures { result ≡ is_in_half root.now fin place }
{
    if fin {
        is_final(root, place)
    } else {
        !is_final(root, place)
    }
}

// Adds the places that are final, or those that are not.
fn add_those(
    root: &RootFsm,
    met: &IndexSet<Place>,
    fin: bool,
    places: &mut IndexSet<Place>,
) -> Result<(), Memory>
    ensures { IfOk result (λ _. places.new.keys ≡ with_places places.old.keys (filter (is_in_half root.now fin) met.now.keys)) }
{
    for i in 0..met.len() {
        let place = place_at(met, i);
        if is_in_half(root, fin, place) {
            add_place(places, place)?;
        }
    }
    Ok(())
}

// Places, and how many of them are not final.
#[derive(Drop)]
pub(crate) struct Numbering {
    pub places: IndexSet<Place>,
    pub plain: usize,
}

// The places that are not final, and then those that are.
pub(crate) fn plain_first(
    alloc: Global,
    root: &RootFsm,
    met: &IndexSet<Place>,
) -> Result<Numbering, Memory>
    ensures places { IfOk result (λ n. n.places.keys ≡ with_places (with_places [] (filter (λ p. not (is_final root.now p)) met.now.keys)) (filter (λ p. is_final root.now p) met.now.keys)) }
    ensures plain { IfOk result (λ n. n.plain ≡ length (with_places [] (filter (λ p. not (is_final root.now p)) met.now.keys))) }
{
    let mut places = IndexSet::new(alloc);
    add_those(root, met, false, &mut places)?;
    let plain = places.len();
    add_those(root, met, true, &mut places)?;
    Ok(Numbering { places, plain })
}

// The numbers of places.
pub(crate) fn numbers_of(
    alloc: Global,
    places: &IndexSet<Place>,
    listed: &[Place],
) -> Result<Vec<u32>, Memory>
    requires { length places.now.keys ≤ 2147483646 }
    ensures { IfOk result (λ v. v.items ≡ map (number_in places.now.keys) listed.now) }
{
    let mut numbers = Vec::new(alloc);
    for place in listed {
        push(&mut numbers, number_in(places, *place))?;
    }
    Ok(numbers)
}

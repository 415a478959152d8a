// The walk that finds all places.
ghost use Rattle.std.specs.Prelude.{◌≡◌, ◌≤◌, IfOk, length};
ghost use Rattle.rl_reach.specs.Places.{with_places};
ghost use Rattle.rl_reach.specs.Walks.{AreSound, IsWalk, starts_of, targets_of};

use crate::parts::edges_at;
use crate::place::Place;
use crate::places::{add_place, add_places, place_at};
use indexmap::IndexSet;
use rl_fsm::{Edge, RootFsm};
use rl_types::Memory;
use std::alloc::Global;

// Adds where the edges of a place lead.
fn add_targets(root: &RootFsm, met: &mut IndexSet<Place>, place: Place) -> Result<(), Memory>
    ensures { IfOk result (λ _. met.new.keys ≡ with_places met.old.keys (targets_of root.now place)) }
{
    for e in edges_at(root, place) {
        let target = Place {
            entry: place.entry,
            state: e.target,
        };
        add_place(met, target)?;
    }
    Ok(())
}

// All places that a walk meets, in order.
pub(crate) fn walk(
    alloc: Global,
    root: &RootFsm,
    starts: &[Place],
) -> Result<IndexSet<Place>, Memory>
    requires starts { starts.now ≡ starts_of root.now }
    requires sound { AreSound root.now }
    ensures { IfOk result (λ met. IsWalk root.now met.keys met.keys) }
{
    let mut met = IndexSet::new(alloc);
    add_places(&mut met, starts)?;
    let mut i = 0;
    'places: while i < met.len() {
        let place = place_at(&met, i);
        add_targets(root, &mut met, place)?;
        i += 1;
    }
    Ok(met)
}

//! Key classes.
ghost use Rattle.std.specs.Prelude.{◌≡◌, ◌≤◌, ◌<◌, Some, length, slice_get, IfOk, int_lt, ◌<ℤ◌, ◌≤ℤ◌};
ghost use Rattle.std.specs.Option.{option_copied};
ghost use Rattle.std.specs.List.Sorted.{IsPartitionPoint};
ghost use Rattle.rl_classes.specs.Sets.{range_count};
ghost use Rattle.rl_classes.specs.Pieces.{Ordered, ranges_in, number_at};
ghost use Rattle.rl_classes.specs.Classes.{class_of, AreClasses};

use crate::classes::classes_of;
use crate::partition::separated;
use crate::pieces::{Piece, pieces};
use rl_types::{Alphabet, Key, KeyRange, List, Memory};
use std::alloc::Global;
use std::marker::Model;

/// The key classes of some sets: the keys of an alphabet, those that the same sets hold together in one class.
/// Classes are numbered from 0. Contracts see the list of the classes, each as the list of its ranges.
#[derive(Debug, Drop)]
pub struct Segments {
    pieces: Vec<Piece>,
    classes: Vec<List<KeyRange>>,
}

impl Model for Segments {
    ghost use Rattle.std.specs.Prelude.{List};
    ghost use Rattle.std.specs.Coded.{coded_list};
    ghost use Rattle.rl_types.specs.KeyRange.{Range, coded_range};

    ghost Value = { List (List Range) };

    ghost coded = { coded_list (coded_list coded_range) };

    ghost use Rattle.rl_classes.specs.Classes.{AreSearchable};

    ghost view = { λ s. s.classes.items };

    ghost invariant = { λ s. AreSearchable s.pieces.items s.classes.items };
}

/// How many pieces end before a key.
fn ended(pieces: &[Piece], key: Key) -> usize
    requires { Ordered (ranges_in pieces.now) }
    ensures { IsPartitionPoint (λ piece. piece.range.hi <ℤ key.0) (λ piece. key.0 ≤ℤ piece.range.hi) pieces.now result }
{
    pieces.partition_point(
        |piece: &Piece| -> bool
            ensures { result ≡ int_lt piece.now.range.hi key.0 }
        { piece.range.hi() < key.0 },
    )
}

fn piece_at(pieces: &[Piece], at: usize) -> Option<&Piece>
    ensures { option_copied result ≡ slice_get pieces.now at }
{
    pieces.get(at)
}

/// The number of the piece that holds a key.
fn number_of_key(pieces: &[Piece], key: Key) -> Option<u32>
    requires { Ordered (ranges_in pieces.now) }
    ensures { result ≡ number_at pieces.now key.0 }
{
    match piece_at(pieces, ended(pieces, key)) {
        Some(piece) if piece.range.lo() <= key.0 => Some(piece.number),
        _ => None,
    }
}

impl Segments {
    /// The key classes of sets over an alphabet: two keys of the alphabet are in one class exactly where the same sets
    /// hold them. Keys outside the alphabet are in none, whatever the sets hold. Without sets all keys are in one
    /// class. An `Err` is want of memory.
    pub fn of(
        alloc: Global,
        sets: &[List<KeyRange>],
        alphabet: Alphabet,
    ) -> Result<Segments, Memory>
        requires { range_count sets.now ≤ 1073741823 }
        ensures { IfOk result (AreClasses sets.now alphabet) }
    {
        let told = separated(alloc, sets)?;
        let cut = pieces(alloc, &told, alphabet)?;
        let sorted = classes_of(alloc, &cut)?;
        Ok(Segments {
            pieces: sorted.pieces,
            classes: sorted.classes,
        })
    }

    /// The class of a key. None exactly where the key is in no class, which is outside the alphabet. It takes no memory.
    pub fn class_of(&self, key: Key) -> Option<u32>
        ensures { result ≡ class_of self.now key.0 }
    {
        number_of_key(&self.pieces, key)
    }

    /// The ranges of a class, ascending. It takes no memory.
    pub fn members(&self, class: u32) -> &[KeyRange]
        requires { class < length self.now }
        ensures { slice_get self.now class ≡ Some result.now }
    {
        self.classes[class as usize].as_slice()
    }

    /// How many classes there are. It takes no memory.
    pub fn count(&self) -> u32
        ensures { result ≡ length self.now }
    {
        self.classes.len() as u32
    }
}

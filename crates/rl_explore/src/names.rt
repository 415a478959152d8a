// Configurations and their numbers.
use indexmap::IndexSet;
use rl_types::Memory;
use std::alloc::Global;
use std::hash::Hash;
use std::marker::Model;

// Configurations with the numbers from 0, in order of first use. Contracts see the list of them.
#[derive(Drop)]
pub struct Names<C: Eq + Hash> {
    set: IndexSet<C>,
}

impl<C: Eq + Hash> Model for Names<C> {
    ghost use Rattle.std.specs.Prelude.{List};
    ghost use Rattle.std.specs.Coded.{coded_list};

    ghost Value = { List C };

    ghost coded = { coded_list C.code };

    ghost view = { λ n. n.set.keys };
}

impl<C: Eq + Hash + Drop> Names<C> {
    ghost use Rattle.std.specs.Prelude.{◌≡◌, [], IfOk, Some, length, slice_get, true};
    ghost use Rattle.std.specs.Option.{option_copied};
    ghost use Rattle.std.specs.List.{position_or_len};
    ghost use Rattle.indexmap.specs.IndexSet.{insert_key};

    // No configurations.
    pub fn new(alloc: Global) -> Names<C>
        ensures { result ≡ [] }
    {
        Names {
            set: IndexSet::new(alloc),
        }
    }

    // How many there are.
    pub fn len(&self) -> usize
        ensures { result ≡ length self.now }
    {
        self.set.len()
    }

    // The configuration of this number.
    pub fn get(&self, number: usize) -> Option<&C>
        ensures { option_copied result ≡ slice_get self.now number }
    {
        self.set.get_index(number)
    }

    // The number of the configuration, which is the next one where it has none yet.
    pub fn insert(&mut self, c: C) -> Result<usize, Memory>
        ensures names { IfOk result (λ _. self.new ≡ insert_key C.eq self.old c) }
        ensures number { IfOk result (λ n. n ≡ position_or_len (C.eq c) self.old) }
        ensures stored { IfOk result (λ n. (k : C) × (slice_get self.new n ≡ Some k) × (C.eq c k ≡ true)) }
    {
        match self.set.insert_full(c) {
            Ok((number, _)) => Ok(number),
            Err(_) => Err(Memory),
        }
    }
}

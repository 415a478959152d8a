// Configurations.
use crate::lists::copied;
use rl_types::Memory;
use std::alloc::Global;
use std::hash::{Hash, Hasher};
use std::marker::Model;

// The state of each machine, where it is not absent. Contracts see the list.
#[derive(Drop)]
pub struct Parts {
    parts: Vec<Option<u32>>,
}

impl Model for Parts {
    ghost use Rattle.std.specs.Prelude.{List, ℕ, Option};

    ghost Value = { List (Option ℕ) };

    ghost view = { λ m. m.parts.items };
}

impl PartialEq for Parts {
    ghost use Rattle.std.specs.Prelude.{nat_eq};
    ghost use Rattle.std.specs.Option.{option_eq};
    ghost use Rattle.std.specs.Cmp.Lexicographic.{pointwise};
    ghost use Rattle.std.specs.Cmp;
    ghost use Rattle.rl_scan.specs.Same.{parts_equiv};

    ghost eq = { pointwise (option_eq nat_eq) };

    ghost laws = { Cmp.partial_equiv_from_equiv parts_equiv };

    fn eq(&self, other: &Parts) -> bool {
        self.parts.as_slice() == other.parts.as_slice()
    }
}

impl Eq for Parts {
    ghost use Rattle.rl_scan.specs.Same.{parts_equiv};

    ghost laws = { parts_equiv };
}

impl Hash for Parts {
    ghost use Rattle.std.specs.Hash as fed;
    ghost use Rattle.std.specs.Hash.{same_Alike};
    ghost use Rattle.rl_scan.specs.Same.{parts_same};

    ghost hash_input = { fed.slice (fed.option fed.u32) };

    ghost respects_eq = { (same_Alike (fed.slice (fed.option fed.u32)) parts_same).fed };

    fn hash<H: Hasher>(&self, state: &mut H) {
        self.parts.as_slice().hash(state);
    }
}

impl Parts {
    ghost use Rattle.std.specs.Prelude.{◌≡◌, IfOk};

    // These states.
    pub fn of(parts: Vec<Option<u32>>) -> Parts
        ensures { result ≡ parts.items }
    {
        Parts { parts }
    }

    // The states, in the order of the machines.
    pub fn states(&self) -> &[Option<u32>]
        ensures { result.now ≡ self.now }
    {
        &self.parts
    }

    // The same, in memory of its own.
    pub fn copy(&self, alloc: Global) -> Result<Parts, Memory>
        ensures { IfOk result (λ c. c ≡ self.now) }
    {
        let parts = copied(alloc, self.parts.as_slice())?;
        Ok(Parts { parts })
    }
}

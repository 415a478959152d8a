// Sets of states.
use std::hash::{Hash, Hasher};
use std::marker::Model;

// A list of numbers of states, ascending where it is a set. Contracts see the list.
#[derive(Drop)]
pub struct Members {
    states: Vec<u32>,
}

impl Model for Members {
    ghost use Rattle.std.specs.Prelude.{List, ℕ};

    ghost Value = { List ℕ };

    ghost view = { λ m. m.states.items };
}

impl PartialEq for Members {
    ghost use Rattle.std.specs.Prelude.{nat_eq};
    ghost use Rattle.std.specs.Cmp.Lexicographic.{pointwise, nat_list_eq_equiv};
    ghost use Rattle.std.specs.Cmp;

    ghost eq = { pointwise nat_eq };

    ghost laws = { Cmp.partial_equiv_from_equiv nat_list_eq_equiv };

    fn eq(&self, other: &Members) -> bool {
        self.states.as_slice() == other.states.as_slice()
    }
}

impl Eq for Members {
    ghost use Rattle.std.specs.Cmp.Lexicographic.{nat_list_eq_equiv};

    ghost laws = { nat_list_eq_equiv };
}

impl Hash for Members {
    ghost use Rattle.std.specs.Hash as fed;
    ghost use Rattle.std.specs.Hash.{same_Alike};
    ghost use Rattle.std.specs.Cmp.Lexicographic.{bytes_decides};

    ghost hash_input = { fed.slice fed.u32 };

    ghost respects_eq = { (same_Alike (fed.slice fed.u32) bytes_decides).fed };

    fn hash<H: Hasher>(&self, state: &mut H) {
        self.states.as_slice().hash(state);
    }
}

impl Members {
    ghost use Rattle.std.specs.Prelude.{◌≡◌};

    // These states.
    pub fn of(states: Vec<u32>) -> Members
        ensures { result ≡ states.items }
    {
        Members { states }
    }

    // The numbers.
    pub fn states(&self) -> &[u32]
        ensures { result.now ≡ self.now }
    {
        &self.states
    }
}

//! Tables, whose arrays are valid.
ghost use Rattle.std.specs.Prelude.{◌≡◌, MatchResult};
ghost use Rattle.rl_arrays.specs.Valid.{Valid, IsBad};

use crate::check::check;
use rl_arrays::{Arrays, BadValue};
use std::marker::Model;

/// The tables of a machine: arrays that are valid. Contracts see the arrays.
#[derive(Debug, Drop)]
pub struct Tables {
    arrays: Arrays,
}

impl Model for Tables {
    ghost use Rattle.rl_arrays.specs.declared.arrays.Arrays.{Arrays};
    ghost use Rattle.rl_arrays.specs.Valid.{Valid};

    ghost Value = { Arrays };

    ghost view = { λ t. t.arrays };

    ghost invariant = { λ t. Valid t.arrays };
}

impl Tables {
    /// The tables of these arrays. Where the arrays are not valid, it names the first element that is not right: array by
    /// array in the order in which they are printed, and index by index (this profile). It takes no memory.
    pub fn new(arrays: Arrays) -> Result<Tables, BadValue>
        ensures { MatchResult result (λ t. (t ≡ arrays) × Valid arrays) (IsBad arrays) }
    {
        check(&arrays)?;
        Ok(Tables { arrays })
    }

    /// Their arrays, as they were given. It takes no memory.
    pub fn arrays(&self) -> &Arrays
        ensures same { result.now ≡ self.now }
        ensures valid { Valid self.now }
    {
        &self.arrays
    }
}

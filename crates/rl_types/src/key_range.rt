// Ranges of keys.
ghost use Rattle.std.specs.Prelude.{◌≡◌, ◌≤ℤ◌};

use std::marker::Model;

/// The keys from `lo` to `hi`, both included. Contracts see a record of the two ends.
#[derive(Clone, Copy, Debug, PartialEq, Eq, PartialOrd, Ord)]
pub struct KeyRange {
    lo: i64,
    hi: i64,
}

impl Model for KeyRange {
    ghost use Rattle.std.specs.Prelude.{◌≤ℤ◌};
    ghost use Rattle.rl_types.specs.KeyRange.{Range, coded_range};

    ghost Value = { Range };

    ghost coded = { coded_range };

    ghost view = { λ r. record { lo = r.lo; hi = r.hi } };

    ghost invariant = { λ r. r.lo ≤ℤ r.hi };

    ghost inverse = { λ r. record { lo = r.lo; hi = r.hi } };
}

impl KeyRange {
    ghost use Rattle.std.specs.Prelude.{◌≡◌, ◌≤ℤ◌, IfSome, IsNone, ◌↔◌, ◌<ℤ◌};

    /// The range of these ends; None exactly where `lo` is above `hi`.
    pub fn new(lo: i64, hi: i64) -> Option<KeyRange>
        ensures range { IfSome result (λ r. r ≡ record { lo = lo; hi = hi }) }
        ensures none { IsNone result ↔ (hi <ℤ lo) }
    {
        if lo > hi {
            None
        } else {
            Some(KeyRange { lo, hi })
        }
    }

    /// The least key of the range.
    pub fn lo(&self) -> i64
        ensures end { result ≡ self.now.lo }
        ensures ordered { result ≤ℤ self.now.hi }
    {
        let _ = &self.hi;
        self.lo
    }

    /// The greatest key of the range.
    pub fn hi(&self) -> i64
        ensures end { result ≡ self.now.hi }
        ensures ordered { self.now.lo ≤ℤ result }
    {
        let _ = &self.lo;
        self.hi
    }
}

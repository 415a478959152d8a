// The calls of an object in memory, some of which fail.
use std::marker::Model;

// The numbers of the calls that fail, and counts of the calls and of the faults.
#[derive(Drop)]
pub struct Calls {
    fails: Vec<u64>,
    made: u64,
    faults: u64,
}

impl Model for Calls {
    ghost use Rattle.rl_io.specs.Memory.{CallsMade};

    ghost Value = { CallsMade };

    ghost view = { λ c. record { fails = c.fails.items; made = c.made; faults = c.faults } };
}

impl Calls {
    ghost use Rattle.std.specs.Prelude.{◌≡◌, IsTrue};
    ghost use Rattle.rl_io.specs.Outside.{HasCause};
    ghost use Rattle.rl_io.specs.Memory.{CountsCall, no_calls};

    // Before the first call.
    pub fn new(fails: Vec<u64>) -> Calls
        ensures { result ≡ no_calls fails.items }
    {
        Calls {
            fails,
            made: 0,
            faults: 0,
        }
    }

    // Counts one more call, and tells whether it fails.
    pub fn next_fails(&mut self) -> bool
        ensures counted { CountsCall self.old self.new (IsTrue result) }
        ensures cause { HasCause self.old.faults self.new.faults (IsTrue result) }
    {
        self.made = self.made.saturating_add(1);
        let fails = self.fails.contains(&self.made);
        if fails {
            self.faults = self.faults.saturating_add(1);
        }
        fails
    }
}

// How many cells a configuration of an expression has.
ghost use Rattle.std.specs.Prelude.{◌<◌};

use rl_types::KeyRange;

// A set of keys, as ranges.
pub type KeySet = rl_types::List<KeyRange>;

// The different sets of an expression, how many key classes they make, and its different conditions in ascending order.
// A configuration has a cell for each key class and each set of truths of the conditions.
#[derive(Drop)]
pub struct Cells {
    pub sets: Vec<KeySet>,
    pub classes: u32,
    pub conditions: Vec<u8>,
    ghost some: { 0 < classes },
}

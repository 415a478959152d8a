// The edges of one configuration.
ghost use Rattle.std.specs.Prelude.{◌≡◌, ◌++◌, ◌<◌, true, false, All, IfOk};
ghost use Rattle.rl_types.specs.declared.numbers.Letter.{Letter};
ghost use Rattle.rl_explore.specs.Rows.{IsRow, edge_at, edges_on, row_edges, jams_at, jams_on, row_jams};

use crate::found::Found;
use crate::lists::push;
use crate::operator::{Operator, Step};
use rl_fsm::pieces::pieces;
use rl_labels::Truths;
use rl_types::{KeyRange, Letter, Memory};
use std::alloc::Global;

// The edges of a configuration, and whether the candidates are a cycle at some letter.
#[derive(Drop)]
pub struct Row<S> {
    pub found: Vec<Found<S>>,
    pub cycle: bool,
}

// Adds the edge for these truths, if there is one; whether the candidates are a cycle.
fn add_edge<O: Operator>(
    alloc: Global,
    op: &O,
    c: &O::Conf,
    range: KeyRange,
    asks: Truths,
    truths: u8,
    found: &mut Vec<Found<O::Conf>>,
) -> Result<bool, Memory>
    requires { asks.0 ≡ (O.auto op.now).asked c.now range.lo }
    ensures found { IfOk result (λ _. found.new.items ≡ found.old.items ++ edge_at (O.auto op.now) c.now range truths) }
    ensures cycle { IfOk result (λ b. b ≡ jams_at (O.auto op.now) (O.jams op.now) c.now range truths) }
{
    if truths & asks.0 != truths {
        return Ok(false);
    }
    let letter = Letter {
        key: range.lo(),
        truths,
    };
    match op.step(alloc, c, letter)? {
        Step::Stay => Ok(false),
        Step::Cycle => Ok(true),
        Step::Go(m) => {
            let edge = Found {
                range,
                asks,
                truths: Truths(truths),
                to: m.to,
                carry: m.carry,
            };
            push(found, edge)?;
            Ok(false)
        }
    }
}

// Adds the edges at the keys of a piece, which all step alike; whether there is a cycle.
fn add_piece<O: Operator>(
    alloc: Global,
    op: &O,
    c: &O::Conf,
    range: KeyRange,
    found: &mut Vec<Found<O::Conf>>,
) -> Result<bool, Memory>
    ensures found { IfOk result (λ _. found.new.items ≡ found.old.items ++ edges_on (O.auto op.now) c.now range) }
    ensures cycle { IfOk result (λ b. b ≡ jams_on (O.auto op.now) (O.jams op.now) c.now range) }
    ensures few { (O.auto op.now).asked c.now range.lo < 256 }
{
    let first = Letter {
        key: range.lo(),
        truths: 0,
    };
    let asks = op.asked(c, first);
    let mut cycle = false;
    for t in 0..u32::from(asks.0) + 1 {
        let here = add_edge(alloc, op, c, range, asks, t as u8, found)?;
        cycle = cycle || here;
    }
    Ok(cycle)
}

// The edges at all pieces.
fn at_pieces<O: Operator>(
    alloc: Global,
    op: &O,
    c: &O::Conf,
    pieces: &[KeyRange],
) -> Result<Row<O::Conf>, Memory>
    ensures found { IfOk result (λ r. r.found.items ≡ row_edges (O.auto op.now) c.now pieces.now) }
    ensures cycle { IfOk result (λ r. r.cycle ≡ row_jams (O.auto op.now) (O.jams op.now) c.now pieces.now) }
    ensures few { IfOk result (λ _. All (λ p. (O.auto op.now).asked c.now p.lo < 256) pieces.now) }
{
    let mut found = Vec::new(alloc);
    let mut cycle = false;
    for p in pieces {
        let here = add_piece(alloc, op, c, *p, &mut found)?;
        cycle = cycle || here;
    }
    Ok(Row { found, cycle })
}

// The edges of the configuration.
pub fn row_of<O: Operator>(alloc: Global, op: &O, c: &O::Conf) -> Result<Row<O::Conf>, Memory>
    ensures row { IfOk result (λ r. IsRow (O.auto op.now) c.now r.found.items) }
    ensures cycle { IfOk result (λ r. r.cycle ≡ true → (l : Letter) × (O.jams op.now c.now l ≡ true)) }
    ensures clear { IfOk result (λ r. r.cycle ≡ false → (l : Letter) → O.jams op.now c.now l ≡ false) }
{
    let ranges = op.ranges(alloc, c)?;
    let pieces = pieces(alloc, &ranges)?;
    let row = at_pieces(alloc, op, c, &pieces)?;
    Ok(row)
}

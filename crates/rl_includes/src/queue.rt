// The statements of a file as a queue, whose first is its last, so that each is taken by value.
ghost use Rattle.std.specs.Prelude.{◌≡◌, ◌++◌, reverse, IfOk, OnOk, MatchOption};
ghost use Rattle.rl_includes.specs.Turns.{placed, located};
ghost use Rattle.rl_includes.specs.Answers.{IsDone, IsNext};

use crate::memory::push;
use crate::reader::Located;
use crate::unrolled::Unrolled;
use rl_grammar::syntax::{Statement, Syntax};
use rl_types::{List, Memory};
use std::alloc::Global;

/// Puts the statements of a block before those of the blocks behind it.
fn put(queue: &mut List<Located>, block: u64, statements: List<Statement>) -> Result<(), Memory>
    ensures { OnOk result (reverse queue.new ≡ placed block statements ++ reverse queue.old) }
{
    let mut statements = statements;
    while let Some(statement) = statements.pop() {
        push(queue, Located { block, statement })?;
    }
    Ok(())
}

/// The statements of blocks.
pub fn queue_of(alloc: Global, blocks: List<Syntax>) -> Result<List<Located>, Memory>
    ensures { IfOk result (λ queue. reverse queue ≡ located 0 blocks) }
{
    let mut queue = List::new(alloc);
    let mut blocks = blocks;
    while let Some(tree) = blocks.pop() {
        let Syntax { statements, end: _ } = tree;
        put(&mut queue, blocks.len() as u64, statements)?;
    }
    Ok(queue)
}

/// The next statement, unless a refusal ends them.
pub fn next(queue: &mut List<Located>, unrolled: &Unrolled) -> Option<Located>
    ensures { MatchOption result (IsDone queue.old unrolled.now) (λ item. IsNext queue.old queue.new unrolled.now item) }
{
    if unrolled.stop.is_some() {
        return None;
    }
    queue.pop()
}

// What building an expression gives.
use crate::cells::Cells;
use rl_fsm::Fsm;
use rl_ops::BuildFault;

// The machine of an expression, how the cells of its configurations are counted, and how many nodes it has.
#[derive(Drop)]
pub struct Built {
    pub machine: Fsm,
    pub cells: Cells,
    pub nodes: u32,
}

// Why an expression has no machine, and the number of the node, from 0 in post-order, that is refused.
#[derive(Clone, Copy)]
pub struct Refused {
    pub fault: BuildFault,
    pub node: u32,
}

// Why a specification has no machine.
use rl_ops::BuildFault;
use rl_types::Place;

/// Why a specification has no machine: the first node of its entries that is refused, with the entries in text order and
/// the nodes of each in post-order.
#[derive(Clone, Copy, Debug, PartialEq, Eq)]
pub struct BuildRefusal {
    /// Why the node is refused. At one node `L6` comes before `L8`, `L8` before `F15`, and `F15` before `F12`, which
    /// only scanners have.
    pub fault: BuildFault,
    /// The place of the node's first token; with `F12` that of the pattern.
    pub place: Place,
}

// States and edges.
use rl_labels::Truths;
use rl_types::{ActionId, KeyRange, List};

/// A transition. It is taken at a key of its range where, of the conditions `asks`, exactly those among `truths` hold;
/// its list is called on the way (this profile).
#[derive(Debug, Drop)]
pub struct MinEdge {
    pub range: KeyRange,
    /// The conditions that are asked.
    pub asks: Truths,
    /// Those that hold.
    pub truths: Truths,
    /// The number of the state that it leads to.
    pub target: u32,
    /// The actions, in the order in which they are called.
    pub list: List<ActionId>,
}

/// A state, with its lists of actions in the order in which they are called (the guide's sections 3.6 and 6.3; that they
/// are lists and no longer sets is this profile's).
#[derive(Debug, Drop)]
pub struct MinState {
    /// 0 plain; in a scanner 1 the start, 2 no match, 3 a match that a letter may lengthen, 4 a match that none can.
    pub kind: u8,
    /// The number of the scanner's start for kinds 1 to 4, else 0.
    pub home: u32,
    pub from: List<ActionId>,
    pub to: List<ActionId>,
    pub eof: List<ActionId>,
    pub error: List<ActionId>,
    /// The list of the token that ends here.
    pub token: List<ActionId>,
    /// Ascending by range and then by truths.
    pub edges: List<MinEdge>,
}

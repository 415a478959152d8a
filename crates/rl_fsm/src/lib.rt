//! Machines of numbered states, whose edges are taken at ranges of keys and under conditions.
#![tactic(auto)]

mod edge;
mod fsm;
pub mod laws;
mod lists;
pub mod look_ups;
mod made;
pub mod pieces;
mod root;
mod scan_fsm;
mod sound;
mod state;

pub use edge::Edge;
pub use fsm::Fsm;
pub use root::{EntryFsm, RootFsm};
pub use scan_fsm::ScanFsm;
pub use state::{Marks, Out, State};

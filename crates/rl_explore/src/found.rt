// Edges whose targets are configurations.
use rl_labels::{Carry, Truths};
use rl_types::KeyRange;

// An edge, with the configuration that it leads to.
#[derive(Drop)]
pub struct Found<S> {
    pub range: KeyRange,
    pub asks: Truths,
    pub truths: Truths,
    pub to: S,
    pub carry: Carry,
}

// Edges.
use rl_labels::{Priors, Stamped, Truths};
use rl_types::KeyRange;

/// A transition from one state to another. It is taken at a key of its range where, of the conditions `asks`, exactly
/// those among `truths` hold (the guide's section 6.5; that conditions are asked as a set is this profile's). It
/// carries actions and priorities.
#[derive(Debug, Drop)]
pub struct Edge {
    pub range: KeyRange,
    pub asks: Truths,
    pub truths: Truths,
    pub target: u32,
    pub actions: Stamped,
    pub priors: Priors,
}

//! Steps.

/// What is looked up for a character: that there is no step, or its target and the number of the list that is called on
/// the way.
#[derive(Clone, Copy, Debug, PartialEq, Eq)]
pub enum Step {
    /// There is no step.
    Stay,
    /// The step leads to a state.
    Go { target: u32, list: u64 },
}

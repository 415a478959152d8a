// Where labels are put.

/// Where an embedding puts an action or a priority (the guide's sections 3.1 and 4.1).
#[derive(Clone, Copy, Debug, PartialEq, Eq)]
pub enum How {
    /// `>`: on the transitions out of the start; where the start is final, also on what leaves it.
    Enter,
    /// `@`: on the transitions into a final state.
    Finish,
    /// `$`: on every transition.
    All,
    /// `%`: on what leaves a final state by a concatenation or a repetition.
    Leave,
}

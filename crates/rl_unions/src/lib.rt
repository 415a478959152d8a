//! Unions of many operands: how they are grouped does not matter where no embedding puts on a priority, and a union has no
//! fewer configurations than an operand. Laws alone: each function does nothing, and its contract is what is proved.
#![tactic(auto)]

mod laws;

pub use laws::{grouping_does_not_matter, unions_grow};

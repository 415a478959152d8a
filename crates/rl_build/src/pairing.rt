// Operators of two operands.

// An operator of two operands.
#[derive(Clone, Copy)]
pub enum Pairing {
    Union,
    And,
    Minus,
    Cat,
}

//! How the programs end: why before their end, with which status, and with which line on the error output.
#![tactic(auto)]

mod refusal;
mod status;
mod told;

pub use refusal::Refusal;
pub use status::status_for;
pub use told::tell;

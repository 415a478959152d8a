//! Certificates that a machine has no state too many: a word that leads to each state, and for each two states a word
//! after which they show different things.
#![tactic(auto)]

mod certificate;
mod cover;
mod fault;
mod lists;
mod order;
mod reach;
mod right;
mod rounds;
mod separating;
mod steps;
mod table;
mod text;
mod views;
mod walk;

pub use certificate::{Access, Apart, Certificate};
pub use fault::CertFault;
pub use right::check;
pub use rl_types::Letter;
pub use separating::separate;
pub use text::certificate_text;

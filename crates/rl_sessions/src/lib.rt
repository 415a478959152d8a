//! Many sessions over one set of tables, each by itself, whose inputs come in pieces.
#![tactic(auto)]

mod fault;
mod from_start;
mod one;
mod pieces;
mod places;
mod roll;
mod sessions;
mod windows;

pub use fault::SessionFault;
pub use from_start::sessions_run_from_their_start;
pub use one::SessionView;
pub use sessions::Sessions;

//! Whether the Spec of a machine is well-formed.
#![tactic(auto)]

mod codes;
mod differ;
mod expressions;
mod form;
mod parts;
mod quiet;
mod scope;
mod sizes;
mod statements;

pub use form::has_form;

//! The machine that the machines of all entries make together: definitions.
#![tactic(auto)]

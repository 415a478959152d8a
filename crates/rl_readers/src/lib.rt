//! Readers of lists from the left, and the laws that pass from parts of a grammar to wholes: `specs/` has the readers,
//! `proofs/` the laws. No code stands here; parsers of tokens and of bytes are proved against it.
#![tactic(auto)]

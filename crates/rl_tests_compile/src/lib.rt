//! Examples of the public calls of the compilation, from sources to printed text. A library with tests of its own is proved
//! twice, once with them; so they stand here.
#![tactic(auto)]

#[cfg(test)]
mod compile;

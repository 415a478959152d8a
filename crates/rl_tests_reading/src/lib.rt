//! Examples of the public calls of the libraries of the reading, of what it stands on, and of the words of the programs, one module for each library. A library with tests of
//! its own is proved twice, once with them; so they stand here.
#![tactic(auto)]

#[cfg(test)]
mod blocks;
#[cfg(test)]
mod files;
#[cfg(test)]
mod form;
#[cfg(test)]
mod io;
#[cfg(test)]
mod leaves;
#[cfg(test)]
mod lex;
#[cfg(test)]
mod model;
#[cfg(test)]
mod printed;
#[cfg(test)]
mod resolve;
#[cfg(test)]
mod words;

//! Examples of the public calls of the libraries of tables and of runs over them, one module for each library. A library with tests of
//! its own is proved twice, once with them; so they stand here.
#![tactic(auto)]

#[cfg(test)]
mod cdata;
#[cfg(test)]
mod cread;
#[cfg(test)]
mod replay;
#[cfg(test)]
mod runner;
#[cfg(test)]
mod streaming;
#[cfg(test)]
mod upgrade;
#[cfg(test)]
mod window;

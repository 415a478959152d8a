//! Examples of the public calls of the libraries that make machines and tables, one module for each library. A library with tests of
//! its own is proved twice, once with them; so they stand here.
#![tactic(auto)]

#[cfg(test)]
mod certificate;
#[cfg(test)]
mod certificate_text;
#[cfg(test)]
mod classes;
#[cfg(test)]
mod embed;
#[cfg(test)]
mod labels;
#[cfg(test)]
mod make;
#[cfg(test)]
mod min;
#[cfg(test)]
mod minimal;
#[cfg(test)]
mod ops;
#[cfg(test)]
mod refine;
#[cfg(test)]
mod scan;
#[cfg(test)]
mod separate;

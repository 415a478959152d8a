// What a source comes to once its includes are read.
use rl_grammar::Step;
use rl_types::{Fault, Limit, List, Name};

/// The statements of a source with the files that it includes read in place.
#[derive(Drop)]
pub struct Unrolled {
    /// The files that were read, by their numbers, under the names that they were looked up by. The source is the first.
    pub files: List<Name>,
    /// The statements in text order, up to the refusal where there is one. An `include` is none of them, nor is a `write`
    /// or a `machine` of an included file.
    pub steps: List<Step>,
    /// The refusal that ends them.
    pub stop: Option<Stop>,
}

/// Why the statements end before the source does. The name is that of the file of the place, or of the file that was to be
/// read, as it was looked up.
#[derive(Debug, Drop)]
pub enum Stop {
    /// A fault: F4 of a statement that stands before any `machine` of its file, or of an `include` whose named machine is
    /// absent from the file; F17; or what an included file itself has.
    Fault(Fault, Name),
    /// A limit is passed: L2, or what an included file itself passes.
    Limit(Limit, Name),
    /// The store has no such file.
    Missing(Name),
    /// The store failed, and counted it.
    StoreFailed(Name),
}

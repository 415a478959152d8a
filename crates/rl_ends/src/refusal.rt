// Why a program ends before its end.
use rl_cread::TableFault;
use rl_replay::ScriptFault;
use rl_types::{Fault, Limit, Name};

/// Why a program ends before its end (this profile). A name is that of the file that is told of.
#[derive(Debug, Drop)]
pub enum Refusal {
    /// The words have none of the program's forms.
    Usage,
    /// The first fault of a source, in the file of this name.
    Fault(Fault, Name),
    /// The first limit that is passed, in the file of this name; the limit on standard input has the name `input`.
    Limit(Limit, Name),
    /// No file has this name.
    Missing(Name),
    /// The store failed at the file of this name: to read it, or to write it.
    StoreFailed(Name),
    /// The printed file of this name has no section, or one that is not right.
    Section(TableFault, Name),
    /// The first line with a fault of the script of this name; an entry of standard input that is none stands in line 1 of
    /// the script `input`.
    Script(ScriptFault, Name),
    /// The input failed.
    InputFailed,
    /// The output failed.
    OutputFailed,
    /// Want of memory.
    Memory,
}

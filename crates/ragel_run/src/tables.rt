// The tables that a replay runs.
ghost use Rattle.std.specs.Prelude.{◌≡◌, true, IsTrue};
ghost use Rattle.rl_words.specs.Runs.{is_printed as is_printed_name};
ghost use Rattle.rl_words.specs.Told.{text_in};
ghost use Rattle.ragel_run.specs.Reads.{ReadsTables};

use crate::section::read_section;
use crate::source::read_source;
use rl_ends::Refusal;
use rl_io::Store;
use rl_tables::Tables;
use std::alloc::Global;

// Whether a file is a printed one, by its name.
fn is_printed(name: &str) -> bool
    ensures { result ≡ is_printed_name name.now }
{
    name.as_bytes().ends_with(b".c")
}

// The tables that the file under a name gives: those of a source's machine, or those that a printed file spells.
pub fn read_machine<S: Store>(
    alloc: Global,
    machine: Option<&str>,
    name: &str,
    store: &mut S,
) -> Result<Tables, Refusal>
    ensures reads { ReadsTables (S.held store.old) (text_in machine.entry) name.now (S.faults store.old) (S.faults store.new) result }
    ensures same { S.held store.new ≡ S.held store.old }
{
    if is_printed(name) {
        read_section(alloc, machine, name, store)
    } else {
        read_source(alloc, machine, name, store)
    }
}

// The tables that a printed file spells.
ghost use Rattle.std.specs.Option.{option_copied};
ghost use Rattle.std.specs.Prelude.{◌≡◌};
ghost use Rattle.rl_words.specs.Told.{text_in};
ghost use Rattle.ragel_run.specs.Reads.{ReadsSection};

use crate::files::file_name;
use rl_cread::read_tables;
use rl_ends::Refusal;
use rl_io::{Store, StoreFault};
use rl_tables::Tables;
use std::alloc::Global;

// The bytes of the machine's name.
fn bytes_of<'a>(machine: Option<&'a str>) -> Option<&'a [u8]>
    ensures { option_copied result ≡ text_in machine.entry }
{
    match machine {
        Some(name) => Some(name.as_bytes()),
        None => None,
    }
}

// The tables of the section of a machine, or of the first, in the file under a name.
pub fn read_section<S: Store>(
    alloc: Global,
    machine: Option<&str>,
    name: &str,
    store: &mut S,
) -> Result<Tables, Refusal>
    ensures reads { ReadsSection (S.held store.old) (text_in machine.entry) name.now (S.faults store.old) (S.faults store.new) result }
    ensures same { S.held store.new ≡ S.held store.old }
{
    let Ok(file) = file_name(alloc, name) else {
        return Err(Refusal::Memory);
    };
    let text = match store.read(name) {
        Ok(text) => text,
        Err(StoreFault::Missing) => return Err(Refusal::Missing(file)),
        Err(StoreFault::Failed) => return Err(Refusal::StoreFailed(file)),
        Err(StoreFault::Memory) => return Err(Refusal::Memory),
    };
    match read_tables(alloc, &text, bytes_of(machine)) {
        Ok(tables) => Ok(tables),
        Err(fault) => Err(Refusal::Section(fault, file)),
    }
}

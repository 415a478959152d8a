// A printed file's section in version 2.
ghost use Rattle.std.specs.Prelude.{◌≡◌, IfOk, IfErr};
ghost use Rattle.rl_io.specs.Outside.{KeepsOthers};
ghost use Rattle.rl_words.specs.Told.{text_in};
ghost use Rattle.ragel_run.specs.Reads.{IsNewSection, UpgradesAs, WritesFile};

use crate::files::file_name;
use crate::section::read_section;
use rl_cdata::data_text;
use rl_ends::Refusal;
use rl_io::{Store, StoreFault};
use rl_tables::Tables;
use rl_types::{List, Memory};
use rl_upgrade::upgrade;
use std::alloc::Global;

// The section of tables in version 2.
fn new_section(alloc: Global, tables: &Tables) -> Result<List<u8>, Memory>
    ensures { IfOk result (IsNewSection tables.now) }
{
    let upgraded = upgrade(alloc, tables)?;
    let text = data_text(alloc, &upgraded)?;
    Ok(List::from_vec(text))
}

// A text goes to the file under a name.
fn write_file<S: Store>(
    alloc: Global,
    name: &str,
    text: &[u8],
    store: &mut S,
) -> Result<(), Refusal>
    ensures writes { WritesFile name.now text.now (S.held store.old) (S.held store.new) (S.faults store.old) (S.faults store.new) result }
    ensures others { KeepsOthers (S.held store.old) (S.held store.new) name.now }
{
    let Ok(file) = file_name(alloc, name) else {
        return Err(Refusal::Memory);
    };
    match store.write(name, text) {
        Ok(()) => Ok(()),
        Err(StoreFault::Failed) => Err(Refusal::StoreFailed(file)),
        Err(_) => Err(Refusal::Memory),
    }
}

// The section of a machine, or the first, of the printed file goes in version 2 to the new file.
pub fn upgrade_file<S: Store>(
    alloc: Global,
    machine: Option<&str>,
    new_name: &str,
    name: &str,
    store: &mut S,
) -> Result<(), Refusal>
    ensures ends { UpgradesAs (record { machine = text_in machine.entry; out = new_name.now; spec = name.now }) (S.held store.old) (S.held store.new) (S.faults store.old) (S.faults store.new) result }
    ensures others { KeepsOthers (S.held store.old) (S.held store.new) new_name.now }
{
    let tables = match read_section(alloc, machine, name, store) {
        Ok(tables) => tables,
        Err(refusal) => return Err(refusal),
    };
    match new_section(alloc, &tables) {
        Ok(text) => write_file(alloc, new_name, text.as_slice(), store),
        Err(_) => Err(Refusal::Memory),
    }
}

// The control statements of a code, whose entries are numbers.
ghost use Rattle.std.specs.Prelude.{◌≡◌, ◌+◌, ◌++◌, ◌∷◌, [], map, MatchResult};
ghost use Rattle.std.specs.Option.{option_and_then};
ghost use Rattle.rl_grammar.specs.declared.read_fault.ReadFault.TheVariants as reason;
ghost use Rattle.rl_code.specs.Reading as reading;
ghost use Rattle.rl_names.specs.TableForms.{texts};

use crate::codes::said_in;
use crate::memory::push;
use crate::texts::{Texts, index_of};
use rl_code::{Control, Said, Saying};
use rl_grammar::ReadFault;
use rl_run::Statement;
use rl_statements::statement_of;
use rl_types::{EntryId, List};
use std::alloc::Global;

/// The number of an entry with so many before it: of more than 32 bits can count wants memory.
fn entry_behind(count: usize) -> Result<EntryId, ReadFault>
    ensures { MatchResult result (λ e. e ≡ record { 0 = count + 1 }) (λ e. e ≡ reason.Memory) }
{
    let Ok(count) = u32::try_from(count) else {
        return Err(ReadFault::Memory);
    };
    match count.checked_add(1) {
        Some(number) => Ok(EntryId(number)),
        None => Err(ReadFault::Memory),
    }
}

/// The number of the entry of this name.
fn entry_named(entries: &Texts<'_>, name: &[u8]) -> Result<Option<EntryId>, ReadFault>
    ensures { MatchResult result (λ entry. entry ≡ reading.entry_named (texts entries.now) name.now) (λ e. e ≡ reason.Memory) }
{
    match index_of(entries, name) {
        Some(count) => {
            let entry = entry_behind(count)?;
            Ok(Some(entry))
        }
        None => Ok(None),
    }
}

/// The number of the entry that a statement names.
fn target(entries: &Texts<'_>, control: &Control) -> Result<Option<EntryId>, ReadFault>
    ensures { MatchResult result (λ entry. entry ≡ option_and_then (reading.entry_named (texts entries.now)) control.now.target) (λ e. e ≡ reason.Memory) }
{
    match &control.target {
        Some(name) => entry_named(entries, name.bytes()),
        None => Ok(None),
    }
}

fn statement(entries: &Texts<'_>, control: &Control) -> Result<Statement, ReadFault>
    ensures { MatchResult result (λ s. s ≡ reading.statement_of (texts entries.now) control.now) (λ e. e ≡ reason.Memory) }
{
    let entry = target(entries, control)?;
    Ok(statement_of(control, entry))
}

fn add(list: &mut List<Statement>, entries: &Texts<'_>, said: &Said) -> Result<(), ReadFault>
    ensures { MatchResult result (λ _. list.new ≡ list.old ++ map (reading.statement_of (texts entries.now)) (reading.controls (said.now ∷ []))) (λ e. e ≡ reason.Memory) }
{
    match &said.saying {
        Saying::Control(control) => {
            let statement = statement(entries, control)?;
            push(list, statement)
        }
        Saying::Entry(_) | Saying::Position | Saying::Character | Saying::Misplaced => Ok(()),
    }
}

/// The control statements of what a code says.
fn statements_of(
    alloc: Global,
    entries: &Texts<'_>,
    said: &[Said],
) -> Result<List<Statement>, ReadFault>
    ensures { MatchResult result (λ list. list ≡ map (reading.statement_of (texts entries.now)) (reading.controls said.now)) (λ e. e ≡ reason.Memory) }
{
    let mut list = List::new(alloc);
    for one in said {
        add(&mut list, entries, one)?;
    }
    Ok(list)
}

/// The control statements of a code among these entries.
pub fn statements_in(
    alloc: Global,
    entries: &Texts<'_>,
    code: &[u8],
) -> Result<List<Statement>, ReadFault>
    ensures { MatchResult result (λ list. list ≡ reading.statements_in (texts entries.now) code.now) (λ e. e ≡ reason.Memory) }
{
    let said = said_in(alloc, code)?;
    statements_of(alloc, entries, said.as_slice())
}

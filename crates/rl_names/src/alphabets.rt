// The alphabets of all machines, by one pass over the statements.
ghost use Rattle.std.specs.Prelude.{◌≡◌, ℕ, List, if◌then◌else◌, MatchResult};
ghost use Rattle.std.specs.Str.{bytes_eq};
ghost use Rattle.rl_grammar.specs.declared.read_fault.ReadFault.TheVariants as reason;
ghost use Rattle.rl_names.specs.Frames as frames;
ghost use Rattle.rl_names.specs.TableForms.{alphabet_in};

use crate::frames::alphabet_by;
use indexmap::IndexMap;
use rl_grammar::{ReadFault, Step};
use rl_types::Alphabet;
use std::alloc::Global;

/// The alphabets of machines; one that is not there has `char`.
pub type Alphabets<'a> = IndexMap<&'a [u8], Alphabet>;

/// The alphabet of a machine.
pub fn alphabet_in(table: &Alphabets<'_>, machine: &[u8]) -> Alphabet
    ensures { result ≡ alphabet_in machine.now table.now }
{
    match table.get(machine) {
        Some(alphabet) => *alphabet,
        None => Alphabet::Char,
    }
}

/// Notes the alphabet of a machine.
fn set_alphabet<'a>(
    table: &mut Alphabets<'a>,
    machine: &'a [u8],
    alphabet: Alphabet,
) -> Result<(), ReadFault>
    ensures { MatchResult result (λ _. (x : List ℕ) → alphabet_in x table.new ≡ (if bytes_eq x machine.now then alphabet else alphabet_in x table.old)) (λ e. e ≡ reason.Memory) }
{
    match table.insert(machine, alphabet) {
        Ok(_) => Ok(()),
        Err(_) => Err(ReadFault::Memory),
    }
}

/// One statement more is read.
fn read<'a>(table: &mut Alphabets<'a>, step: &'a Step) -> Result<(), ReadFault>
    ensures { MatchResult result (λ _. (x : List ℕ) → alphabet_in x table.new ≡ frames.alphabet_behind x (alphabet_in x table.old) step.now) (λ e. e ≡ reason.Memory) }
{
    let machine = step.machine.bytes();
    let alphabet = alphabet_by(alphabet_in(table, machine), &step.statement);
    set_alphabet(table, machine, alphabet)?;
    Ok(())
}

/// The alphabets of all machines: that of a machine's last `alphtype`, or else `char`.
pub fn alphabets_of(alloc: Global, steps: &[Step]) -> Result<Alphabets<'_>, ReadFault>
    ensures { MatchResult result (λ table. (x : List ℕ) → alphabet_in x table ≡ frames.alphabet_of x steps.now) (λ e. e ≡ reason.Memory) }
{
    let mut table = IndexMap::new(alloc);
    for step in steps {
        read(&mut table, step)?;
    }
    Ok(table)
}

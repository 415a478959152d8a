// Tables of texts, which have places in the order in which they were put in.
ghost use Rattle.std.specs.Prelude.{◌≡◌, not, position, MatchResult};
ghost use Rattle.std.specs.List.{list_any};
ghost use Rattle.std.specs.Str.{bytes_eq};
ghost use Rattle.rl_grammar.specs.declared.read_fault.ReadFault.TheVariants as reason;
ghost use Rattle.rl_names.specs.Answers.{Gives};
ghost use Rattle.rl_names.specs.Frames.{with_name};
ghost use Rattle.rl_names.specs.Expressions as expressions;
ghost use Rattle.rl_names.specs.TableForms.{texts};

use crate::memory::fault_at;
use indexmap::IndexSet;
use rl_grammar::ReadFault;
use rl_types::{FaultKind, Place};

/// Texts in the order in which they were put in.
pub type Texts<'a> = IndexSet<&'a [u8]>;

/// Whether a text is among those of a table.
pub fn has(table: &Texts<'_>, text: &[u8]) -> bool
    ensures { result ≡ list_any (bytes_eq text.now) (texts table.now) }
{
    table.contains(text)
}

/// Puts a text at the end, where it is not there, and says whether it was put.
pub fn put<'a>(table: &mut Texts<'a>, text: &'a [u8]) -> Result<bool, ReadFault>
    ensures { MatchResult result (λ is_new. (is_new ≡ not (list_any (bytes_eq text.now) (texts table.old))) × (texts table.new ≡ with_name (texts table.old) text.now)) (λ e. e ≡ reason.Memory) }
{
    match table.insert(text) {
        Ok(is_new) => Ok(is_new),
        Err(_) => Err(ReadFault::Memory),
    }
}

/// The place of a text in the table, from 0.
pub fn index_of(table: &Texts<'_>, text: &[u8]) -> Option<usize>
    ensures { result ≡ position (bytes_eq text.now) (texts table.now) }
{
    table.get_index_of(text)
}

/// The place of a text in the table, from 0; a text that is not there is a name that is not defined earlier.
pub fn number_of(table: &Texts<'_>, place: Place, text: &[u8]) -> Result<usize, ReadFault>
    ensures { Gives (expressions.numbered place text.now (texts table.now)) result }
{
    match index_of(table, text) {
        Some(index) => Ok(index),
        None => Err(fault_at(FaultKind::F5, place)),
    }
}

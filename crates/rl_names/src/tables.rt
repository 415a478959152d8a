// What is defined so far, by names.
ghost use Rattle.std.specs.Prelude.{◌≡◌, ℕ, List, [], ◌∷◌, ◌++◌, None, if◌then◌else◌, false, length, MatchResult};
ghost use Rattle.std.specs.List.{list_any};
ghost use Rattle.std.specs.Str.{bytes_eq};
ghost use Rattle.rl_grammar.specs.declared.read_fault.ReadFault.TheVariants as reason;
ghost use Rattle.rl_names.specs.Names.{said_of};
ghost use Rattle.rl_names.specs.TableForms.{texts, entries, count_in};

use indexmap::{IndexMap, IndexSet};
use rl_grammar::ReadFault;
use rl_types::Place;

/// A machine's name, and a name that it has.
pub type Named<'a> = (&'a [u8], &'a [u8]);

/// An end-of-file or error embedding.
#[derive(Clone, Copy)]
pub struct Ending {
    /// The number of the definition in which it stands, among those of all machines.
    pub number: usize,
    pub place: Place,
}

/// What the name of an expression brings to where it is used.
#[derive(Clone, Copy)]
pub struct Brought {
    /// Whether expressions may use it: a scanner has its name for the entry alone.
    pub usable: bool,
    /// Whether an action with control statements is embedded, here or in what the expression's names stand for.
    pub steers: bool,
    /// The end-of-file or error embedding that stands first, here or in what the expression's names stand for.
    pub ending: Option<Ending>,
}

/// Names with what is said of them.
pub type Sayings<'a, A> = IndexMap<Named<'a>, A>;

/// What is defined so far, of all machines.
#[derive(Drop)]
pub struct Tables<'a> {
    /// The names of expressions, and what they bring to where they are used.
    pub defined: Sayings<'a, Brought>,
    /// The names of actions, and whether they have control statements.
    pub actions: Sayings<'a, bool>,
    /// The machines whose data are written.
    pub written: IndexSet<&'a [u8]>,
    /// How many names a machine has.
    pub counts: IndexMap<&'a [u8], u32>,
}

/// What is said of a name.
pub fn said_of<A: Copy>(table: &Sayings<'_, A>, machine: &[u8], name: &[u8]) -> Option<A>
    ensures { result ≡ said_of (machine.now, name.now) (entries table.now) }
{
    match table.get(&(machine, name)) {
        Some(said) => Some(*said),
        None => None,
    }
}

/// Notes a name with what is said of it.
pub fn define<'a, A: Copy>(
    table: &mut Sayings<'a, A>,
    machine: &'a [u8],
    name: &'a [u8],
    said: A,
) -> Result<(), ReadFault>
    requires { said_of (machine.now, name.now) (entries table.old) ≡ None }
    ensures { MatchResult result (λ _. entries table.new ≡ entries table.old ++ (((machine.now, name.now), said) ∷ [])) (λ e. e ≡ reason.Memory) }
{
    match table.insert((machine, name), said) {
        Ok(_) => Ok(()),
        Err(_) => Err(ReadFault::Memory),
    }
}

/// How many names there are.
pub fn length_of(table: &Sayings<'_, Brought>) -> usize
    ensures { result ≡ length (entries table.now) }
{
    table.len()
}

/// Notes a text.
pub fn add_text<'a>(table: &mut IndexSet<&'a [u8]>, text: &'a [u8]) -> Result<(), ReadFault>
    requires { list_any (bytes_eq text.now) (texts table.old) ≡ false }
    ensures { MatchResult result (λ _. texts table.new ≡ texts table.old ++ (text.now ∷ [])) (λ e. e ≡ reason.Memory) }
{
    match table.insert(text) {
        Ok(_) => Ok(()),
        Err(_) => Err(ReadFault::Memory),
    }
}

/// How many names a machine has.
pub fn count_of(table: &IndexMap<&[u8], u32>, machine: &[u8]) -> u32
    ensures { result ≡ count_in machine.now table.now }
{
    match table.get(machine) {
        Some(count) => *count,
        None => 0,
    }
}

/// Notes how many names a machine has.
pub fn set_count<'a>(
    table: &mut IndexMap<&'a [u8], u32>,
    machine: &'a [u8],
    count: u32,
) -> Result<(), ReadFault>
    ensures { MatchResult result (λ _. (x : List ℕ) → count_in x table.new ≡ (if bytes_eq x machine.now then count else count_in x table.old)) (λ e. e ≡ reason.Memory) }
{
    match table.insert(machine, count) {
        Ok(_) => Ok(()),
        Err(_) => Err(ReadFault::Memory),
    }
}

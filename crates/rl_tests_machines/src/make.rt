// The tables of `main := 'a';`.
ghost use Rattle.std.specs.Prelude.{◌≡◌, IfOk};
ghost use Rattle.rl_tests_machines.specs.OneCharacter.{main_entry, one_character};

use rl_automata::Tree;
use rl_make::{BuildRefusal, tables_of};
use rl_model::{Entry, Frame, Root, Spec};
use rl_tables::Tables;
use rl_types::{Alphabet, Code, KeyRange, List, Name, Place};
use std::alloc::Global;
use std::test::Fail;

fn name(alloc: Global, bytes: &[u8]) -> Result<Name, Fail>
    ensures { IfOk result (λ n. n ≡ bytes.now) }
{
    Ok(Name::new(bytes.to_vec(alloc)?))
}

fn entry(alloc: Global) -> Result<Entry, Fail>
    ensures { IfOk result (λ e. e ≡ main_entry) }
{
    let name = name(alloc, b"main")?;
    let range = KeyRange::new(97, 97).ok_or("a range")?;
    let ranges = List::from_slice(alloc, &[range])?;
    let place = Place {
        file: 0,
        line: 1,
        col: 9,
    };
    let places = List::from_slice(alloc, &[place])?;
    Ok(Entry {
        name,
        root: Root::Plain(Tree::Set(ranges)),
        places,
    })
}

fn spec(alloc: Global) -> Result<Spec, Fail>
    ensures { IfOk result (λ s. s ≡ one_character) }
{
    let machine = name(alloc, b"m")?;
    let mut entries = List::new(alloc);
    entries.push(entry(alloc)?)?;
    let mut files = List::new(alloc);
    files.push(name(alloc, b"m.rl")?)?;
    Ok(Spec {
        machine,
        alphabet: Alphabet::Char,
        entries,
        actions: List::new(alloc),
        conds: List::new(alloc),
        frame: Frame {
            access: Code::new(Vec::new(alloc)),
            variables: List::new(alloc),
            marked: false,
        },
        writes: List::new(alloc),
        files,
    })
}

// The state of the start entry; None where the Spec is refused.
fn start(tables: Result<Tables, BuildRefusal>) -> Option<u32> {
    let Ok(tables) = tables else { return None };
    Some(tables.entry_state(tables.start_entry()))
}

// Its start is state 1, the first behind Error.
#[test]
fn one_character_has_tables(rt: HostRuntime) -> Result<(), Fail> {
    let spec = spec(rt.alloc())?;
    let start = start(tables_of(rt.alloc(), &spec));
    assert!(rt; start == Some(1));
    Ok(())
}

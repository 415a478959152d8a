// Specs of one entry have their form, or lack something.
use rl_automata::Tree;
use rl_form::has_form;
use rl_model::{Entry, Frame, Root, Spec};
use rl_types::{Alphabet, Code, List, Name, Place};
use std::alloc::{AllocError, Global};
use std::test::Fail;

fn name(alloc: Global, text: &[u8]) -> Result<Name, AllocError> {
    Ok(Name::new(text.to_vec(alloc)?))
}

// A machine of these entries, with one file.
fn spec_of(alloc: Global, machine: Name, entries: List<Entry>, files: List<Name>) -> Spec {
    Spec {
        machine,
        alphabet: Alphabet::Char,
        entries,
        actions: List::new(alloc),
        conds: List::new(alloc),
        frame: Frame {
            access: Code::new(Vec::new(alloc)),
            variables: List::new(alloc),
            marked: false,
        },
        writes: List::new(alloc),
        files,
    }
}

// A machine of one entry, the empty word, with this name and these places.
fn one_entry(alloc: Global, text: &[u8], places: &[Place]) -> Result<Spec, AllocError> {
    let places = List::from_slice(alloc, places)?;
    let entry = Entry {
        name: name(alloc, text)?,
        root: Root::Plain(Tree::Null),
        places,
    };
    let mut entries = List::new(alloc);
    entries.push(entry)?;
    let mut files = List::new(alloc);
    files.push(name(alloc, b"one.rl")?)?;
    Ok(spec_of(alloc, name(alloc, b"one")?, entries, files))
}

fn asked(alloc: Global, spec: Result<Spec, AllocError>) -> Option<bool> {
    let Ok(spec) = spec else {
        return None;
    };
    has_form(alloc, &spec).ok()
}

#[test]
fn an_entry_has_a_name_and_a_place(rt: HostRuntime) -> Result<(), Fail> {
    let alloc = rt.alloc();
    let first = Place {
        file: 0,
        line: 3,
        col: 1,
    };
    let elsewhere = Place {
        file: 1,
        line: 3,
        col: 1,
    };
    assert_eq!(rt;
        asked(alloc, one_entry(alloc, b"main", &[first])),
        Some(true)
    );
    assert_eq!(rt; asked(alloc, one_entry(alloc, b"main", &[])), Some(false));
    assert_eq!(rt;
        asked(alloc, one_entry(alloc, b"main", &[elsewhere])),
        Some(false)
    );
    assert_eq!(rt;
        asked(alloc, one_entry(alloc, b"when", &[first])),
        Some(false)
    );
    Ok(())
}

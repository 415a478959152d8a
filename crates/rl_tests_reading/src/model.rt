use rl_model::{ActionDef, Entry, Frame, Pattern, Root, Spec, Tree, Write, WriteKind};
use rl_types::{ActionId, Alphabet, Code, KeyRange, List, Name, Place};
use std::alloc::Global;
use std::test::Fail;

const PLACE: Place = Place {
    file: 0,
    line: 1,
    col: 24,
};

fn name(alloc: Global, bytes: &[u8]) -> Result<Name, Fail> {
    Ok(Name::new(bytes.to_vec(alloc)?))
}

fn scanner_of(alloc: Global, key: i64) -> Result<Root, Fail> {
    let range = KeyRange::new(key, key).ok_or("a range")?;
    let mut patterns = List::new(alloc);
    patterns.push(Pattern {
        tree: Tree::Set(List::from_slice(alloc, &[range])?),
        token: Some(ActionId(1)),
        place: PLACE,
    })?;
    Ok(Root::Scanner(patterns))
}

fn scanner_spec(alloc: Global) -> Result<Spec, Fail> {
    let mut entries = List::new(alloc);
    entries.push(Entry {
        name: name(alloc, b"main")?,
        root: scanner_of(alloc, 97)?,
        places: List::from_slice(alloc, &[PLACE, PLACE])?,
    })?;
    let mut actions = List::new(alloc);
    actions.push(ActionDef {
        name: name(alloc, b"A")?,
        code: Code::new(b"{ }".to_vec(alloc)?),
        statements: List::new(alloc),
        place: PLACE,
    })?;
    let write = Write {
        block: 0,
        kind: WriteKind::Data,
        place: PLACE,
    };
    Ok(Spec {
        machine: name(alloc, b"m")?,
        alphabet: Alphabet::Char,
        entries,
        actions,
        conds: List::new(alloc),
        frame: Frame {
            access: Code::new(Vec::new(alloc)),
            variables: List::new(alloc),
            marked: true,
        },
        writes: List::from_slice(alloc, &[write])?,
        files: List::new(alloc),
    })
}

#[test]
fn a_spec_holds_its_parts(rt: HostRuntime) -> Result<(), Fail> {
    let spec = scanner_spec(rt.alloc())?;
    assert!(rt; spec.machine.bytes() == b"m".as_slice());
    assert_eq!(rt; spec.entries.len(), 1);
    assert_eq!(rt; spec.actions.len(), 1);
    assert_eq!(rt; spec.writes.len(), 1);
    Ok(())
}

// The lines of one session over an input that comes in blocks.
use crate::runner::{SETTINGS, scanner, word};
use rl_io::{MemSink, MemSource};
use rl_stream::{StreamFault, stream};
use rl_tables::{Arrays, Tables};
use std::alloc::{AllocError, Global};
use std::test::Fail;

/// What a stream came to, and what was written.
#[derive(Drop)]
struct Told {
    end: Result<(), StreamFault>,
    text: Vec<u8>,
}

fn told_by(
    alloc: Global,
    arrays: Result<Arrays, AllocError>,
    mut input: MemSource,
    mut out: MemSink,
) -> Option<Told> {
    let Ok(arrays) = arrays else {
        return None;
    };
    let Ok(tables) = Tables::new(arrays) else {
        return None;
    };
    let end = stream(
        alloc,
        &tables,
        SETTINGS,
        tables.start_entry(),
        &mut input,
        &mut out,
    );
    let Ok(text) = out.bytes().to_vec(alloc) else {
        return None;
    };
    Some(Told { end, text })
}

fn lines(text: &[u8]) -> &[u8] {
    text
}

#[test]
fn lines_do_not_depend_on_the_cut(rt: HostRuntime) -> Result<(), Fail> {
    let alloc = rt.alloc();
    let none = MemSink::new(alloc, Vec::new(alloc));
    let single = MemSource::new(b"ab".to_vec(alloc)?, 1, Vec::new(alloc));
    let told = told_by(alloc, word(alloc, 0), single, none).ok_or("no tables")?;
    assert!(rt; told.end.is_ok());
    let expected = b"input do x 0\ninput do x 1\ninput end final 2\n";
    assert_eq!(rt; lines(&told.text), expected.as_slice());
    let none = MemSink::new(alloc, Vec::new(alloc));
    let whole = MemSource::new(b"ab".to_vec(alloc)?, 4096, Vec::new(alloc));
    let told = told_by(alloc, word(alloc, 0), whole, none).ok_or("no tables")?;
    assert_eq!(rt; lines(&told.text), expected.as_slice());
    Ok(())
}

#[test]
fn tokens_go_over_blocks(rt: HostRuntime) -> Result<(), Fail> {
    let alloc = rt.alloc();
    let none = MemSink::new(alloc, Vec::new(alloc));
    let single = MemSource::new(b"aaac".to_vec(alloc)?, 1, Vec::new(alloc));
    let told = told_by(alloc, scanner(alloc), single, none).ok_or("no tables")?;
    let expected =
        b"input token A 2 0 1\ninput token A 3 1 2\ninput token A 3 2 3\ninput stop error 3\ninput end error 3\n";
    assert_eq!(rt; lines(&told.text), expected.as_slice());
    Ok(())
}

#[test]
fn failed_source_is_no_end(rt: HostRuntime) -> Result<(), Fail> {
    let alloc = rt.alloc();
    let none = MemSink::new(alloc, Vec::new(alloc));
    let second = MemSource::new(b"ab".to_vec(alloc)?, 1, vec![in alloc; 2]?);
    let told = told_by(alloc, word(alloc, 0), second, none).ok_or("no tables")?;
    assert!(rt; told.end == Err(StreamFault::InputFailed));
    assert_eq!(rt; lines(&told.text), b"input do x 0\n".as_slice());
    Ok(())
}

#[test]
fn failed_sink_is_told(rt: HostRuntime) -> Result<(), Fail> {
    let alloc = rt.alloc();
    let first = MemSink::new(alloc, vec![in alloc; 1]?);
    let whole = MemSource::new(b"ab".to_vec(alloc)?, 4096, Vec::new(alloc));
    let told = told_by(alloc, word(alloc, 0), whole, first).ok_or("no tables")?;
    assert!(rt; told.end == Err(StreamFault::OutputFailed));
    Ok(())
}

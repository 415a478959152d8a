// Each object once, through its trait.
use rl_io::{
    Failed, FileStore, InputSource, MemSink, MemSource, MemStore, OutputSink, Sink, SinkFault,
    Source, Store, StoreFault,
};
use rl_types::Name;
use std::io::{Cursor, ErrorKind, Read, Write};
use std::test::Fail;
use std::{fs, io};

fn replace<S: Store>(store: &mut S, name: &str) -> Result<Vec<u8>, StoreFault> {
    store.write(name, b"old text")?;
    store.write(name, b"new")?;
    store.read(name)
}

fn first_byte<S: Source>(source: &mut S) -> Result<Option<u8>, Failed> {
    let mut buffer = [0u8; 1];
    let n = source.read(&mut buffer)?;
    if n == 0 {
        Ok(None)
    } else {
        Ok(Some(buffer[0]))
    }
}

fn write_twice<S: Sink>(sink: &mut S) -> Result<(), SinkFault> {
    sink.write_all(b"one ")?;
    sink.write_all(b"two")
}

#[test]
fn store_in_memory(rt: HostRuntime) -> Result<(), Fail> {
    let alloc = rt.alloc();
    let name = Name::new("a.rl".as_bytes().to_vec(alloc)?);
    let mut files = Vec::new(alloc);
    files.push((name, b"text".to_vec(alloc)?))?;
    let mut store = MemStore::new(alloc, files, vec![in alloc; 5]?);
    assert_eq!(rt; store.read("a.rl")?.as_slice(), b"text".as_slice());
    assert_eq!(rt; replace(&mut store, "b.rl")?.as_slice(), b"new".as_slice());
    assert_eq!(rt; store.write("b.rl", b"lost"), Err(StoreFault::Failed));
    assert!(rt; store.bytes_of("b.rl") == Some(b"new".as_slice()));
    assert_eq!(rt; store.read("c.rl").err(), Some(StoreFault::Missing));
    assert!(rt; store.bytes_of("c.rl").is_none());
    Ok(())
}

#[test]
fn streams_in_memory(rt: HostRuntime) -> Result<(), Fail> {
    let alloc = rt.alloc();
    let mut source = MemSource::new(b"abc".to_vec(alloc)?, 2, vec![in alloc; 2]?);
    let mut buffer = [0u8; 8];
    assert_eq!(rt; source.read(&mut buffer), Ok(2));
    assert_eq!(rt; first_byte(&mut source), Err(Failed));
    assert_eq!(rt; first_byte(&mut source), Ok(Some(b'c')));
    assert_eq!(rt; first_byte(&mut source), Ok(None));
    let mut sink = MemSink::new(alloc, vec![in alloc; 3]?);
    write_twice(&mut sink)?;
    assert_eq!(rt; sink.write_all(b"lost"), Err(SinkFault::Failed));
    assert_eq!(rt; sink.bytes(), b"one two".as_slice());
    Ok(())
}

#[test]
fn files(rt: HostRuntime) -> Result<(), Fail> {
    let mut store = FileStore::new(&rt);
    assert_eq!(rt;
        replace(&mut store, "try.txt")?.as_slice(),
        b"new".as_slice()
    );
    fs::remove_file(&rt, "try.txt")?;
    assert_eq!(rt; store.read("try.txt").err(), Some(StoreFault::Missing));
    assert_eq!(rt; store.read(".").err(), Some(StoreFault::Failed));
    assert_eq!(rt; store.write("absent/try.txt", b""), Err(StoreFault::Failed));
    Ok(())
}

// A stream that fails at each call.
#[derive(Drop)]
struct Broken;

impl Read for Broken {
    fn read(&mut self, _buf: &mut [u8]) -> io::Result<usize> {
        Err(io::Error::from(ErrorKind::Other))
    }
}

impl Write for Broken {
    fn write(&mut self, _buf: &[u8]) -> io::Result<usize> {
        Err(io::Error::from(ErrorKind::Other))
    }

    fn flush(&mut self) -> io::Result<()> {
        Ok(())
    }
}

#[test]
fn streams(rt: HostRuntime) -> Result<(), Fail> {
    let mut source = InputSource::new(Cursor::new(b"a"));
    assert_eq!(rt; first_byte(&mut source), Ok(Some(b'a')));
    assert_eq!(rt; first_byte(&mut source), Ok(None));
    let mut written = Vec::new(rt.alloc());
    let mut sink = OutputSink::new(&mut written);
    write_twice(&mut sink)?;
    drop(sink);
    assert_eq!(rt; written.as_slice(), b"one two".as_slice());
    assert_eq!(rt; first_byte(&mut InputSource::new(Broken)), Err(Failed));
    assert_eq!(rt;
        write_twice(&mut OutputSink::new(Broken)),
        Err(SinkFault::Failed)
    );
    write_twice(&mut OutputSink::new(rt.stdout()))?;
    write_twice(&mut OutputSink::new(rt.stderr()))?;
    assert_eq!(rt; InputSource::new(rt.reader()).read(&mut []), Ok(0));
    Ok(())
}

// A store in memory.
ghost use Rattle.std.specs.Prelude.{◌≡◌, OnOk, OnErr, MatchOption, position};
ghost use Rattle.std.specs.Str.{bytes_eq};
ghost use Rattle.rl_io.specs.Memory.{files_of, find_bytes, PutsFile};

use crate::calls::Calls;
use crate::{Store, StoreFault};
use rl_types::Name;
use std::alloc::{AllocError, Global};
use std::marker::Model;

/// A store in memory, which tells what it holds and fails at chosen calls. Contracts see the files and the calls.
#[derive(Drop)]
pub struct MemStore {
    alloc: Global,
    files: Vec<(Name, Vec<u8>)>,
    calls: Calls,
}

impl Model for MemStore {
    ghost use Rattle.rl_io.specs.Memory.{StoredFiles, files_of};

    ghost Value = { StoredFiles };

    ghost view = { λ s. record { files = files_of s.files.items; calls = s.calls } };
}

impl MemStore {
    ghost use Rattle.rl_io.specs.Memory.{no_calls, held_by, HoldsFiles, NamesDiffer, NamesAreText};

    /// A store of these files whose calls, numbered from 1, fail exactly at the numbers in `fails`. It takes no
    /// memory.
    pub fn new(alloc: Global, files: Vec<(Name, Vec<u8>)>, fails: Vec<u64>) -> MemStore
        requires names_differ { NamesDiffer (files_of files.items) }
        requires names_are_text { NamesAreText (files_of files.items) }
        ensures value { result ≡ record { files = files_of files.items; calls = no_calls fails.items } }
        ensures holds { HoldsFiles (files_of files.items) (held_by result.files) }
    {
        MemStore {
            alloc,
            files,
            calls: Calls::new(fails),
        }
    }

    /// The bytes under a name; None exactly where the name is absent. It is no call of the store.
    pub fn bytes_of(&self, name: &str) -> Option<&[u8]>
        ensures { MatchOption result (held_by self.now.files name.now ≡ None) (λ bytes. held_by self.now.files name.now ≡ Some bytes.now) }
    {
        bytes_under(&self.files, name.as_bytes())
    }
}

impl Store for MemStore {
    ghost use Rattle.std.specs.Prelude.{◌≡◌, ◌≢◌, IfOk, OnOk, OnErr, IsSome, Some};
    ghost use Rattle.rl_io.specs.Outside.{HasCause, Reads, Lacks, Writes, KeepsOthers};
    ghost use Rattle.rl_io.specs.Memory.{CountsCall, held_by, held_by-no_text};

    ghost held = { λ s. Some (held_by s.files) };

    ghost faults = { λ s. s.calls.faults };

    fn read(&mut self, name: &str) -> Result<Vec<u8>, StoreFault>
        ensures bytes { IfOk result (λ bytes. Reads (Some (held_by self.old.files)) name.now bytes.items) }
        ensures missing { result ≡ Err StoreFault.Missing → Lacks (Some (held_by self.old.files)) name.now }
        ensures unchanged { self.new.files ≡ self.old.files }
        ensures cause { HasCause self.old.calls.faults self.new.calls.faults (result ≡ Err StoreFault.Failed) }

        // It fails exactly at the calls that were chosen.
        ensures calls { CountsCall self.old.calls self.new.calls (result ≡ Err StoreFault.Failed) }
    {
        if self.calls.next_fails() {
            return Err(StoreFault::Failed);
        }
        match self.bytes_of(name) {
            None => Err(StoreFault::Missing),
            Some(bytes) => match bytes.to_vec(self.alloc) {
                Ok(copy) => Ok(copy),
                Err(_) => Err(StoreFault::Memory),
            },
        }
    }

    fn write(&mut self, name: &str, bytes: &[u8]) -> Result<(), StoreFault>
        ensures written { OnOk result (Writes (Some (held_by self.old.files)) (Some (held_by self.new.files)) name.now bytes.now) }
        ensures others { KeepsOthers (Some (held_by self.old.files)) (Some (held_by self.new.files)) name.now }
        ensures memory { result ≡ Err StoreFault.Memory → self.new.files ≡ self.old.files }
        ensures never_missing { result ≢ Err StoreFault.Missing }
        ensures told { IsSome (Some (held_by self.old.files)) → IsSome (Some (held_by self.new.files)) }
        ensures cause { HasCause self.old.calls.faults self.new.calls.faults (result ≡ Err StoreFault.Failed) }

        // It fails exactly at the calls that were chosen, and changes nothing then.
        ensures calls { CountsCall self.old.calls self.new.calls (result ≡ Err StoreFault.Failed) }
        ensures refused { OnErr result (self.new.files ≡ self.old.files) }
    {
        if self.calls.next_fails() {
            return Err(StoreFault::Failed);
        }
        match put_file(self.alloc, &mut self.files, name.as_bytes(), bytes) {
            Ok(()) => Ok(()),
            Err(_) => Err(StoreFault::Memory),
        }
    }

    ghost text_names = { λ s. held_by-no_text s.files };
}

// The bytes of the first file of a name.
fn bytes_under<'a>(files: &'a [(Name, Vec<u8>)], name: &[u8]) -> Option<&'a [u8]>
    ensures { MatchOption result (find_bytes (files_of files.now) name.now ≡ None) (λ bytes. find_bytes (files_of files.now) name.now ≡ Some bytes.now) }
{
    match place_of(files, name) {
        Some(at) => Some(files[at].1.as_slice()),
        None => None,
    }
}

// The place of the first file of a name.
fn place_of(files: &[(Name, Vec<u8>)], name: &[u8]) -> Option<usize>
    ensures { result ≡ position (λ file. bytes_eq file.0 name.now) files.now }
{
    files.iter().position(|file| file.0.bytes() == name)
}

// Sets the bytes of a name.
fn put_file(
    alloc: Global,
    files: &mut Vec<(Name, Vec<u8>)>,
    name: &[u8],
    bytes: &[u8],
) -> Result<(), AllocError>
    ensures ok { OnOk result (PutsFile (files_of files.old.items) (files_of files.new.items) name.now bytes.now) }
    ensures err { OnErr result (files_of files.new.items ≡ files_of files.old.items) }
{
    let bytes = bytes.to_vec(alloc)?;
    match place_of(files, name) {
        Some(at) => {
            let file = &mut files[at];
            file.1 = bytes;
            Ok(())
        }
        None => {
            let name = Name::new(name.to_vec(alloc)?);
            files.push((name, bytes))?;
            Ok(())
        }
    }
}

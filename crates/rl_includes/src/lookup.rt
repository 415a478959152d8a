// Where names of files are looked up, and the numbers of files.
ghost use Rattle.std.specs.Prelude.{◌≡◌, ◌≤◌, length, position, IfOk, OnOk};
ghost use Rattle.std.specs.List.{suffix_len};
ghost use Rattle.std.specs.Str.{bytes_eq};
ghost use Rattle.rl_includes.specs.Names.{is_no_slash, folder, is_rooted, looked_up, file_number, is_among, with_file};

use crate::memory::{copied, joined, name_of, push};
use rl_types::{List, Memory, Name};
use std::alloc::Global;

fn is_no_slash(byte: u8) -> bool
    ensures { result ≡ is_no_slash byte }
{
    byte != b'/'
}

/// How many bytes stand behind the last `/`.
fn base_len(name: &[u8]) -> usize
    ensures value { result ≡ suffix_len is_no_slash name.now }
    ensures bound { result ≤ length name.now }
{
    name.iter().rev().take_while(|b| is_no_slash(**b)).count()
}

/// The folder of a file.
fn folder(name: &[u8]) -> &[u8]
    ensures { result.now ≡ folder name.now }
{
    let len = name.len() - base_len(name);
    &name[..len]
}

fn is_rooted(name: &[u8]) -> bool
    ensures { result ≡ is_rooted name.now }
{
    match name {
        [] => false,
        [first, ..] => *first == b'/',
    }
}

/// Where a name in a file is looked up: in the folder of that file, unless it begins with `/` (this profile).
pub fn looked_up(alloc: Global, including: &Name, name: &[u8]) -> Result<Name, Memory>
    ensures { IfOk result (λ found. found ≡ looked_up including.now name.now) }
{
    if is_rooted(name) {
        return name_of(alloc, name);
    }
    joined(alloc, folder(including.bytes()), name)
}

pub fn same_text(text: &[u8], other: &[u8]) -> bool
    ensures { result ≡ bytes_eq text.now other.now }
{
    text == other
}

/// Whether a file is among others. Names are compared as they were looked up.
pub fn is_among(files: &[Name], name: &[u8]) -> bool
    ensures { result ≡ is_among files.now name.now }
{
    files.iter().any(|file| same_text(file.bytes(), name))
}

/// The first place of a file among others.
fn place_among(files: &[Name], name: &[u8]) -> Option<usize>
    ensures { result ≡ position (λ file. bytes_eq file name.now) files.now }
{
    files.iter().position(|file| file.bytes() == name)
}

/// The number of a file, where these were read.
pub fn file_number(files: &[Name], name: &[u8]) -> u64
    ensures { result ≡ file_number files.now name.now }
{
    match place_among(files, name) {
        Some(place) => place as u64,
        None => files.len() as u64,
    }
}

/// Puts a file among those that were read.
pub fn add_file(alloc: Global, files: &mut List<Name>, name: &Name) -> Result<(), Memory>
    ensures { OnOk result (files.new ≡ with_file files.old name.now) }
{
    if is_among(files.as_slice(), name.bytes()) {
        return Ok(());
    }
    push(files, copied(alloc, name)?)
}

// The sections and the printed files of sources with a store in memory.
use rl_compile::{CompileFault, compile, section_of, specs_of};
use rl_io::{MemSink, MemStore, Store};
use rl_resolve::Runs;
use rl_types::{FaultKind, List, Status, Text};
use std::alloc::Global;
use std::test::Fail;

// The lines of the section of `'ab' $x`.
const SECTION: [&str; 35] = [
    "/* rl-data 2 one */",
    "static const int one_start = 1;",
    "static const int one_first_final = 3;",
    "static const int one_error = 0;",
    "static const int one_alphabet = 0;",
    "static const int one_en_main = 1;",
    "static const int _one_actions[] = { 0, 1, 1 };",
    "static const int _one_key_offsets[] = { 0, 0, 1, 2 };",
    "static const long long _one_trans_keys[] = { 97, 98, 0 };",
    "static const int _one_single_lengths[] = { 0, 1, 1, 0 };",
    "static const int _one_range_lengths[] = { 0, 0, 0, 0 };",
    "static const int _one_cell_offsets[] = { 0, 0, 1, 2 };",
    "static const int _one_cell_uses[] = { 0, 1, 0 };",
    "static const int _one_cell_asks[] = { 0, 0, 0 };",
    "static const int _one_cell_entries[] = { 0, 1, 0 };",
    "static const int _one_trans_targs[] = { 2, 3, 0 };",
    "static const int _one_trans_lists[] = { 1, 1, 0 };",
    "static const int _one_from_lists[] = { 0, 0, 0, 0 };",
    "static const int _one_to_lists[] = { 0, 0, 0, 0 };",
    "static const int _one_eof_lists[] = { 0, 0, 0, 0 };",
    "static const int _one_error_lists[] = { 0, 0, 0, 0 };",
    "static const int _one_accept_lists[] = { 0, 0, 0, 0 };",
    "static const int _one_state_kinds[] = { 0, 0, 0, 0 };",
    "static const int _one_homes[] = { 0, 0, 0, 0 };",
    "static const char *const _one_action_names[] = { \"\", \"x\" };",
    "static const int _one_stmt_firsts[] = { 0, 1 };",
    "static const int _one_stmt_counts[] = { 0, 0 };",
    "static const int _one_stmt_kinds[] = { 0 };",
    "static const int _one_stmt_outer[] = { 0 };",
    "static const int _one_stmt_args[] = { 0 };",
    "static const int _one_stmt_bases[] = { 0 };",
    "static const char *const _one_cond_names[] = { \"\" };",
    "static const char *const _one_entry_names[] = { \"\", \"main\" };",
    "static const int _one_entry_states[] = { 0, 1 };",
    "/* rl-end one */",
];

fn store_with(alloc: Global, text: &str) -> Result<MemStore, Fail> {
    let mut store = MemStore::new(alloc, Vec::new(alloc), Vec::new(alloc));
    store.write("m.rl", text.as_bytes())?;
    Ok(store)
}

fn section(alloc: Global, text: &str) -> Result<Result<List<u8>, CompileFault>, Fail> {
    let mut store = store_with(alloc, text)?;
    Ok(section_of(alloc, "m.rl", None, &mut store))
}

// The section between two texts.
fn section_between(alloc: Global, before: &str, behind: &str) -> Result<Vec<u8>, Fail> {
    let mut text = Vec::new(alloc);
    text.extend_from_slice(before.as_bytes())?;
    for line in SECTION {
        text.extend_from_slice(line.as_bytes())?;
        text.push(b'\n')?;
    }
    text.extend_from_slice(behind.as_bytes())?;
    Ok(text)
}

#[test]
fn section_is_printed(rt: HostRuntime) -> Result<(), Fail> {
    let alloc = rt.alloc();
    let wanted = section_between(alloc, "", "")?;
    let text = "%%{ machine one; action x { } main := 'ab' $x; write data; }%%";
    match section(alloc, text)? {
        Ok(bytes) => assert_eq!(rt; bytes.as_slice(), wanted.as_slice()),
        Err(_) => assert!(rt; false),
    }
    Ok(())
}

// Two sources whose machines do the same have one section.
#[test]
fn alike_sources_print_alike(rt: HostRuntime) -> Result<(), Fail> {
    let alloc = rt.alloc();
    let one = section(
        alloc,
        "%%{ machine m; action X { } main := 'ab' $X | 'cb' $X; write data; }%%",
    )?;
    let other = section(
        alloc,
        "%%{ machine m; action X { } main := ( ( 'a' | 'c' ) 'b' ) $X; write data; }%%",
    )?;
    match (one, other) {
        (Ok(a), Ok(b)) => assert_eq!(rt; a.as_slice(), b.as_slice()),
        _ => assert!(rt; false),
    }
    Ok(())
}

// Whether the first refusal of the source under a name is this fault.
fn has_fault(alloc: Global, name: &str, text: &str, kind: FaultKind) -> Result<bool, Fail> {
    let mut store = store_with(alloc, text)?;
    match specs_of(alloc, name, Runs::First, &mut store) {
        Err(CompileFault::Fault(fault, _file)) => Ok(fault.kind == kind),
        _ => Ok(false),
    }
}

#[test]
fn first_fault_is_told(rt: HostRuntime) -> Result<(), Fail> {
    let text = "%%{ machine m; main := x; }%%";
    assert!(rt; has_fault(rt.alloc(), "m.rl", text, FaultKind::F5)?);
    Ok(())
}

#[test]
fn file_is_printed(rt: HostRuntime) -> Result<(), Fail> {
    let alloc = rt.alloc();
    let text = "int a;\n%%{ machine one; action x { } main := 'ab' $x; write data; }%%\nint b;\n";
    let mut store = store_with(alloc, text)?;
    let mut out = MemSink::new(alloc, Vec::new(alloc));
    let mut err = MemSink::new(alloc, Vec::new(alloc));
    let words = vec![in alloc; Text::new("m.rl".to_string(alloc)?)]?;
    let status = compile(alloc, &words, &mut store, &mut out, &mut err);
    assert_eq!(rt; status, Status::Done);
    assert!(rt; err.bytes().is_empty());
    let wanted = section_between(alloc, "int a;\n", "\nint b;\n")?;
    match store.bytes_of("m.c") {
        Some(bytes) => assert_eq!(rt; bytes, wanted.as_slice()),
        None => assert!(rt; false),
    }
    Ok(())
}

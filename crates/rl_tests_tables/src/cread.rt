// The section of a small machine, and changes of it.
use rl_arrays::{ArrayName, BadValue};
use rl_cread::{TableFault, read_tables};
use std::alloc::{AllocError, Global};
use std::test::Fail;

/// The lines of the section behind the first one, version 1.
const ONE: [&str; 33] = [
    "static const int one_start = 1;",
    "static const int one_first_final = 3;",
    "static const int one_error = 0;",
    "static const int one_alphabet = 0;",
    "static const int one_en_main = 1;",
    "static const int _one_actions[] = { 0, 1, 1 };",
    "static const int _one_key_offsets[] = { 0, 0, 1, 2 };",
    "static const long long _one_trans_keys[] = { 97, 98, 0 };",
    "static const int _one_single_lengths[] = { 0, 1, 1, 0 };",
    "static const int _one_range_lengths[] = { 0, 0, 0, 0 };",
    "static const int _one_cell_offsets[] = { 0, 0, 1, 2 };",
    "static const int _one_cell_asks[] = { 0, 0, 0 };",
    "static const int _one_cell_entries[] = { 0, 1, 0 };",
    "static const int _one_trans_targs[] = { 2, 3, 0 };",
    "static const int _one_trans_lists[] = { 1, 1, 0 };",
    "static const int _one_from_lists[] = { 0, 0, 0, 0 };",
    "static const int _one_to_lists[] = { 0, 0, 0, 0 };",
    "static const int _one_eof_lists[] = { 0, 0, 0, 0 };",
    "static const int _one_error_lists[] = { 0, 0, 0, 0 };",
    "static const int _one_accept_lists[] = { 0, 0, 0, 0 };",
    "static const int _one_state_kinds[] = { 0, 0, 0, 0 };",
    "static const int _one_homes[] = { 0, 0, 0, 0 };",
    "static const char *const _one_action_names[] = { \"\", \"x\" };",
    "static const int _one_stmt_firsts[] = { 0, 1 };",
    "static const int _one_stmt_counts[] = { 0, 0 };",
    "static const int _one_stmt_kinds[] = { 0 };",
    "static const int _one_stmt_outer[] = { 0 };",
    "static const int _one_stmt_args[] = { 0 };",
    "static const int _one_stmt_bases[] = { 0 };",
    "static const char *const _one_cond_names[] = { \"\" };",
    "static const char *const _one_entry_names[] = { \"\", \"main\" };",
    "static const int _one_entry_states[] = { 0, 1 };",
    "/* rl-end one */",
];

/// The lines of the section under this version, the one of this number from 2 changed to another one.
fn changed(alloc: Global, version: &str, number: usize, line: &str) -> Result<Vec<u8>, AllocError> {
    let mut text = Vec::from_slice(alloc, b"/* rl-data ")?;
    text.extend_from_slice(version.as_bytes())?;
    text.extend_from_slice(b" one */\n")?;
    for i in 0..ONE.len() {
        if i + 2 == number {
            text.extend_from_slice(line.as_bytes())?;
        } else {
            text.extend_from_slice(ONE[i].as_bytes())?;
        }
        text.push(10)?;
    }
    Ok(text)
}

/// Why a text is not read; none where it is.
fn fault_of(alloc: Global, text: &[u8], machine: Option<&[u8]>) -> Option<TableFault> {
    match read_tables(alloc, text, machine) {
        Ok(_tables) => None,
        Err(fault) => Some(fault),
    }
}

fn wrong(array: ArrayName, index: u64) -> Option<TableFault> {
    Some(TableFault::BadValue(BadValue { array, index }))
}

fn bad_text(line: u64) -> Option<TableFault> {
    Some(TableFault::BadText { line })
}

#[test]
fn the_section_is_read(rt: HostRuntime) -> Result<(), Fail> {
    let text = changed(rt.alloc(), "1", 0, "")?;
    assert_eq!(rt; fault_of(rt.alloc(), &text, None), None);
    assert_eq!(rt; fault_of(rt.alloc(), &text, Some(b"one")), None);
    assert_eq!(rt;
        fault_of(rt.alloc(), &text, Some(b"two")),
        Some(TableFault::NoSection)
    );
    let mut host = Vec::from_slice(rt.alloc(), b"int x;\n")?;
    host.extend_from_slice(&text)?;
    host.extend_from_slice(b"int y;")?;
    assert_eq!(rt; fault_of(rt.alloc(), &host, None), None);
    Ok(())
}

#[test]
fn a_version_says_whether_there_are_uses(rt: HostRuntime) -> Result<(), Fail> {
    let uses = "static const int _one_cell_offsets[] = { 0, 0, 1, 2 };
static const int _one_cell_uses[] = { 0, 1, 0 };";
    let rows = [
        ("2", 12, uses, None),
        ("2", 0, "", bad_text(13)),
        ("1", 12, uses, bad_text(13)),
        ("3", 0, "", Some(TableFault::NoSection)),
    ];
    for (version, number, line, told) in rows {
        let text = changed(rt.alloc(), version, number, line)?;
        assert_eq!(rt; fault_of(rt.alloc(), &text, None), told, "{version}");
    }
    Ok(())
}

#[test]
fn the_first_wrong_line_is_told(rt: HostRuntime) -> Result<(), Fail> {
    let rows = [
        (4, "static const int one_error = 1;", 4),
        (7, "static const int _one_actions[] = { 0, 1, 01 };", 7),
        (6, "static const int one_en_machine = 1;", 6),
        (34, "/* rl-end one */ ", 34),
    ];
    for (number, line, told) in rows {
        let text = changed(rt.alloc(), "1", number, line)?;
        assert_eq!(rt; fault_of(rt.alloc(), &text, None), bad_text(told), "{line}");
    }
    Ok(())
}

#[test]
fn a_missing_line_is_told(rt: HostRuntime) -> Result<(), Fail> {
    let mut text = changed(rt.alloc(), "1", 0, "")?;
    let _newline = text.pop();
    assert_eq!(rt; fault_of(rt.alloc(), &text, None), bad_text(34));
    Ok(())
}

#[test]
fn the_first_wrong_element_is_told(rt: HostRuntime) -> Result<(), Fail> {
    let rows = [
        (
            7,
            "static const int _one_actions[] = { 0, 1, 2 };",
            wrong(ArrayName::Actions, 2),
        ),
        (
            9,
            "static const long long _one_trans_keys[] = { 97, 200, 0 };",
            wrong(ArrayName::TransKeys, 1),
        ),
        (
            13,
            "static const int _one_cell_asks[] = { 1, 0, 0 };",
            wrong(ArrayName::CellAsks, 0),
        ),
        (
            16,
            "static const int _one_trans_lists[] = { 1, 2, 0 };",
            wrong(ArrayName::TransLists, 1),
        ),
        (
            17,
            "static const int _one_from_lists[] = { 0, 0, 0 };",
            wrong(ArrayName::FromLists, 3),
        ),
        (
            3,
            "static const int one_first_final = 5;",
            wrong(ArrayName::EntryStates, 0),
        ),
        (
            6,
            "static const int one_en_main = 2;",
            wrong(ArrayName::EntryStates, 0),
        ),
        (
            33,
            "static const int _one_entry_states[] = { 0 };",
            wrong(ArrayName::EntryStates, 1),
        ),
    ];
    for (number, line, told) in rows {
        let text = changed(rt.alloc(), "1", number, line)?;
        assert_eq!(rt; fault_of(rt.alloc(), &text, None), told, "{line}");
    }
    Ok(())
}

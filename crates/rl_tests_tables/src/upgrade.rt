// A section in version 2.
use rl_cdata::data_text;
use rl_cread::read_tables;
use rl_tables::Tables;
use rl_upgrade::upgrade;
use std::alloc::Global;
use std::test::Fail;

/// The machine of `main := 'ab' $X | 'cb' $X;` in version 1: `a` and `c` have equal cells.
const ONE_CELL_A_KEY: &str = "/* rl-data 1 m */
static const int m_start = 1;
static const int m_first_final = 3;
static const int m_error = 0;
static const int m_alphabet = 0;
static const int m_en_main = 1;
static const int _m_actions[] = { 0, 1, 1 };
static const int _m_key_offsets[] = { 0, 0, 2, 3 };
static const long long _m_trans_keys[] = { 97, 99, 98, 0 };
static const int _m_single_lengths[] = { 0, 2, 1, 0 };
static const int _m_range_lengths[] = { 0, 0, 0, 0 };
static const int _m_cell_offsets[] = { 0, 0, 2, 3 };
static const int _m_cell_asks[] = { 0, 0, 0, 0 };
static const int _m_cell_entries[] = { 0, 1, 2, 0 };
static const int _m_trans_targs[] = { 2, 2, 3, 0 };
static const int _m_trans_lists[] = { 1, 1, 1, 0 };
static const int _m_from_lists[] = { 0, 0, 0, 0 };
static const int _m_to_lists[] = { 0, 0, 0, 0 };
static const int _m_eof_lists[] = { 0, 0, 0, 0 };
static const int _m_error_lists[] = { 0, 0, 0, 0 };
static const int _m_accept_lists[] = { 0, 0, 0, 0 };
static const int _m_state_kinds[] = { 0, 0, 0, 0 };
static const int _m_homes[] = { 0, 0, 0, 0 };
static const char *const _m_action_names[] = { \"\", \"X\" };
static const int _m_stmt_firsts[] = { 0, 1 };
static const int _m_stmt_counts[] = { 0, 0 };
static const int _m_stmt_kinds[] = { 0 };
static const int _m_stmt_outer[] = { 0 };
static const int _m_stmt_args[] = { 0 };
static const int _m_stmt_bases[] = { 0 };
static const char *const _m_cond_names[] = { \"\" };
static const char *const _m_entry_names[] = { \"\", \"main\" };
static const int _m_entry_states[] = { 0, 1 };
/* rl-end m */
";

/// The same in version 2.
const SHARED_CELLS: &str = "/* rl-data 2 m */
static const int m_start = 1;
static const int m_first_final = 3;
static const int m_error = 0;
static const int m_alphabet = 0;
static const int m_en_main = 1;
static const int _m_actions[] = { 0, 1, 1 };
static const int _m_key_offsets[] = { 0, 0, 2, 3 };
static const long long _m_trans_keys[] = { 97, 99, 98, 0 };
static const int _m_single_lengths[] = { 0, 2, 1, 0 };
static const int _m_range_lengths[] = { 0, 0, 0, 0 };
static const int _m_cell_offsets[] = { 0, 0, 2, 3 };
static const int _m_cell_uses[] = { 0, 0, 1, 0 };
static const int _m_cell_asks[] = { 0, 0, 0 };
static const int _m_cell_entries[] = { 0, 1, 0 };
static const int _m_trans_targs[] = { 2, 3, 0 };
static const int _m_trans_lists[] = { 1, 1, 0 };
static const int _m_from_lists[] = { 0, 0, 0, 0 };
static const int _m_to_lists[] = { 0, 0, 0, 0 };
static const int _m_eof_lists[] = { 0, 0, 0, 0 };
static const int _m_error_lists[] = { 0, 0, 0, 0 };
static const int _m_accept_lists[] = { 0, 0, 0, 0 };
static const int _m_state_kinds[] = { 0, 0, 0, 0 };
static const int _m_homes[] = { 0, 0, 0, 0 };
static const char *const _m_action_names[] = { \"\", \"X\" };
static const int _m_stmt_firsts[] = { 0, 1 };
static const int _m_stmt_counts[] = { 0, 0 };
static const int _m_stmt_kinds[] = { 0 };
static const int _m_stmt_outer[] = { 0 };
static const int _m_stmt_args[] = { 0 };
static const int _m_stmt_bases[] = { 0 };
static const char *const _m_cond_names[] = { \"\" };
static const char *const _m_entry_names[] = { \"\", \"main\" };
static const int _m_entry_states[] = { 0, 1 };
/* rl-end m */
";

fn upgraded(alloc: Global, text: &str) -> Option<Tables> {
    let Ok(tables) = read_tables(alloc, text.as_bytes(), None) else {
        return None;
    };
    match upgrade(alloc, &tables) {
        Ok(new) => Some(new),
        Err(_) => None,
    }
}

/// Whether the tables of a text are in version 2 what another text says.
fn is_upgraded_to(alloc: Global, text: &str, wanted: &str) -> bool {
    let Some(tables) = upgraded(alloc, text) else {
        return false;
    };
    match data_text(alloc, &tables) {
        Ok(printed) => printed.as_slice() == wanted.as_bytes(),
        Err(_) => false,
    }
}

#[test]
fn equal_cells_are_shared(rt: HostRuntime) -> Result<(), Fail> {
    assert!(rt; is_upgraded_to(rt.alloc(), ONE_CELL_A_KEY, SHARED_CELLS));
    Ok(())
}

#[test]
fn shared_cells_stay(rt: HostRuntime) -> Result<(), Fail> {
    assert!(rt; is_upgraded_to(rt.alloc(), SHARED_CELLS, SHARED_CELLS));
    Ok(())
}

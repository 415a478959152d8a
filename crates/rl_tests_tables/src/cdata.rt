// Sections that are read are printed as they stood.
use rl_cdata::data_text;
use rl_cread::read_tables;
use std::alloc::Global;
use std::test::Fail;

/// A machine of two steps, in version 1.
const ONE: &str = "/* rl-data 1 one */
static const int one_start = 1;
static const int one_first_final = 3;
static const int one_error = 0;
static const int one_alphabet = 0;
static const int one_en_main = 1;
static const int _one_actions[] = { 0, 1, 1 };
static const int _one_key_offsets[] = { 0, 0, 1, 2 };
static const long long _one_trans_keys[] = { 97, 98, 0 };
static const int _one_single_lengths[] = { 0, 1, 1, 0 };
static const int _one_range_lengths[] = { 0, 0, 0, 0 };
static const int _one_cell_offsets[] = { 0, 0, 1, 2 };
static const int _one_cell_asks[] = { 0, 0, 0 };
static const int _one_cell_entries[] = { 0, 1, 0 };
static const int _one_trans_targs[] = { 2, 3, 0 };
static const int _one_trans_lists[] = { 1, 1, 0 };
static const int _one_from_lists[] = { 0, 0, 0, 0 };
static const int _one_to_lists[] = { 0, 0, 0, 0 };
static const int _one_eof_lists[] = { 0, 0, 0, 0 };
static const int _one_error_lists[] = { 0, 0, 0, 0 };
static const int _one_accept_lists[] = { 0, 0, 0, 0 };
static const int _one_state_kinds[] = { 0, 0, 0, 0 };
static const int _one_homes[] = { 0, 0, 0, 0 };
static const char *const _one_action_names[] = { \"\", \"x\" };
static const int _one_stmt_firsts[] = { 0, 1 };
static const int _one_stmt_counts[] = { 0, 0 };
static const int _one_stmt_kinds[] = { 0 };
static const int _one_stmt_outer[] = { 0 };
static const int _one_stmt_args[] = { 0 };
static const int _one_stmt_bases[] = { 0 };
static const char *const _one_cond_names[] = { \"\" };
static const char *const _one_entry_names[] = { \"\", \"main\" };
static const int _one_entry_states[] = { 0, 1 };
/* rl-end one */
";

/// The same in version 2.
const TWO: &str = "/* rl-data 2 one */
static const int one_start = 1;
static const int one_first_final = 3;
static const int one_error = 0;
static const int one_alphabet = 0;
static const int one_en_main = 1;
static const int _one_actions[] = { 0, 1, 1 };
static const int _one_key_offsets[] = { 0, 0, 1, 2 };
static const long long _one_trans_keys[] = { 97, 98, 0 };
static const int _one_single_lengths[] = { 0, 1, 1, 0 };
static const int _one_range_lengths[] = { 0, 0, 0, 0 };
static const int _one_cell_offsets[] = { 0, 0, 1, 2 };
static const int _one_cell_uses[] = { 0, 1, 0 };
static const int _one_cell_asks[] = { 0, 0, 0 };
static const int _one_cell_entries[] = { 0, 1, 0 };
static const int _one_trans_targs[] = { 2, 3, 0 };
static const int _one_trans_lists[] = { 1, 1, 0 };
static const int _one_from_lists[] = { 0, 0, 0, 0 };
static const int _one_to_lists[] = { 0, 0, 0, 0 };
static const int _one_eof_lists[] = { 0, 0, 0, 0 };
static const int _one_error_lists[] = { 0, 0, 0, 0 };
static const int _one_accept_lists[] = { 0, 0, 0, 0 };
static const int _one_state_kinds[] = { 0, 0, 0, 0 };
static const int _one_homes[] = { 0, 0, 0, 0 };
static const char *const _one_action_names[] = { \"\", \"x\" };
static const int _one_stmt_firsts[] = { 0, 1 };
static const int _one_stmt_counts[] = { 0, 0 };
static const int _one_stmt_kinds[] = { 0 };
static const int _one_stmt_outer[] = { 0 };
static const int _one_stmt_args[] = { 0 };
static const int _one_stmt_bases[] = { 0 };
static const char *const _one_cond_names[] = { \"\" };
static const char *const _one_entry_names[] = { \"\", \"main\" };
static const int _one_entry_states[] = { 0, 1 };
/* rl-end one */
";

/// A machine with conditions, actions without names and a statement, in version 2.
const NAMED: &str = "/* rl-data 2 m */
static const int m_start = 4;
static const int m_first_final = 4;
static const int m_error = 0;
static const int m_alphabet = 0;
static const int m_en_main = 4;
static const int _m_actions[] = { 0, 1, 1, 3, 1, 2, 3 };
static const int _m_key_offsets[] = { 0, 0, 2, 5, 8 };
static const long long _m_trans_keys[] = { 97, 98, 99, 97, 98, 97, 98, 99, 97, 98, 99, 0 };
static const int _m_single_lengths[] = { 0, 0, 1, 1, 1 };
static const int _m_range_lengths[] = { 0, 1, 1, 1, 1 };
static const int _m_cell_offsets[] = { 0, 0, 1, 3, 5 };
static const int _m_cell_uses[] = { 0, 1, 2, 3, 4, 3, 4, 0 };
static const int _m_cell_asks[] = { 6, 7, 7, 6, 6, 0 };
static const int _m_cell_entries[] = { 0, 4, 12, 20, 24, 0 };
static const int _m_trans_targs[] = { 0, 0, 0, 3, 0, 0, 0, 0, 0, 0, 0, 4, 0, 0, 0, 0, 0, 0, 3, 4, 0, 0, 0, 1, 0, 0, 0, 2, 0 };
static const int _m_trans_lists[] = { 0, 0, 0, 0, 0, 0, 0, 0, 0, 0, 0, 0, 0, 0, 0, 0, 0, 0, 0, 0, 0, 0, 0, 1, 0, 0, 0, 3, 0 };
static const int _m_from_lists[] = { 0, 0, 0, 0, 0 };
static const int _m_to_lists[] = { 0, 0, 0, 0, 0 };
static const int _m_eof_lists[] = { 0, 0, 0, 0, 0 };
static const int _m_error_lists[] = { 0, 0, 0, 0, 0 };
static const int _m_accept_lists[] = { 0, 0, 0, 0, 0 };
static const int _m_state_kinds[] = { 0, 0, 0, 0, 0 };
static const int _m_homes[] = { 0, 0, 0, 0, 0 };
static const char *const _m_action_names[] = { \"\", \"B\", \"A\", \"L\" };
static const int _m_stmt_firsts[] = { 0, 1, 1, 1 };
static const int _m_stmt_counts[] = { 0, 0, 0, 1 };
static const int _m_stmt_kinds[] = { 0, 1 };
static const int _m_stmt_outer[] = { 0, 0 };
static const int _m_stmt_args[] = { 0, 0 };
static const int _m_stmt_bases[] = { 0, 0 };
static const char *const _m_cond_names[] = { \"\", \"@8:65\", \"@8:81\", \"@8:96\" };
static const char *const _m_entry_names[] = { \"\", \"main\" };
static const int _m_entry_states[] = { 0, 4 };
/* rl-end m */
";

/// Whether the section of a text is printed as it stands there.
fn is_printed_again(alloc: Global, text: &str) -> bool {
    let Ok(tables) = read_tables(alloc, text.as_bytes(), None) else {
        return false;
    };
    match data_text(alloc, &tables) {
        Ok(printed) => printed.as_slice() == text.as_bytes(),
        Err(_) => false,
    }
}

#[test]
fn sections_are_printed_as_they_stood(rt: HostRuntime) -> Result<(), Fail> {
    for text in [ONE, TWO, NAMED] {
        assert!(rt; is_printed_again(rt.alloc(), text), "{text}");
    }
    Ok(())
}

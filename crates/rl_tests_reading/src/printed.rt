// What is printed in place of blocks.
use rl_cread::read_tables;
use rl_files::read_file;
use rl_io::MemStore;
use rl_lex::split;
use rl_model::Spec;
use rl_printed::{check_sections, printed_text};
use rl_resolve::{Runs, resolve};
use rl_types::{List, MOST_SOURCE_BYTES, Name};
use std::alloc::Global;
use std::test::Fail;

/// Host text before, between and behind blocks; a block with two statements, and one of one line.
const SOURCE: &str = "/* before */
  %%{
  machine one; action x { }
  main := 'ab' $x;
  write init;
  write data;
}%% /* behind */
  %% write init;
%% # nothing
int after;";

/// The section of its machine.
const SECTION: &str = "/* rl-data 2 one */
static const int one_start = 1;
static const int one_first_final = 3;
static const int one_error = 0;
static const int one_alphabet = 0;
static const int one_en_main = 1;
static const int _one_actions[] = { 0, 1, 1 };
static const int _one_key_offsets[] = { 0, 0, 1, 2 };
static const long long _one_trans_keys[] = { 97, 98, 0 };
static const int _one_single_lengths[] = { 0, 1, 1, 0 };
static const int _one_range_lengths[] = { 0, 0, 0, 0 };
static const int _one_cell_offsets[] = { 0, 0, 1, 2 };
static const int _one_cell_uses[] = { 0, 1, 0 };
static const int _one_cell_asks[] = { 0, 0, 0 };
static const int _one_cell_entries[] = { 0, 1, 0 };
static const int _one_trans_targs[] = { 2, 3, 0 };
static const int _one_trans_lists[] = { 1, 1, 0 };
static const int _one_from_lists[] = { 0, 0, 0, 0 };
static const int _one_to_lists[] = { 0, 0, 0, 0 };
static const int _one_eof_lists[] = { 0, 0, 0, 0 };
static const int _one_error_lists[] = { 0, 0, 0, 0 };
static const int _one_accept_lists[] = { 0, 0, 0, 0 };
static const int _one_state_kinds[] = { 0, 0, 0, 0 };
static const int _one_homes[] = { 0, 0, 0, 0 };
static const char *const _one_action_names[] = { \"\", \"x\" };
static const int _one_stmt_firsts[] = { 0, 1 };
static const int _one_stmt_counts[] = { 0, 0 };
static const int _one_stmt_kinds[] = { 0 };
static const int _one_stmt_outer[] = { 0 };
static const int _one_stmt_args[] = { 0 };
static const int _one_stmt_bases[] = { 0 };
static const char *const _one_cond_names[] = { \"\" };
static const char *const _one_entry_names[] = { \"\", \"main\" };
static const int _one_entry_states[] = { 0, 1 };
/* rl-end one */
";

fn specs(alloc: Global, text: &str) -> Result<List<Spec>, Fail> {
    let mut store = MemStore::new(alloc, Vec::new(alloc), Vec::new(alloc));
    let Ok(blocks) = read_file(alloc, text.as_bytes(), 0) else {
        return Err("blocks".into());
    };
    let name = Name::new(Vec::from_slice(alloc, b"m.rl")?);
    match resolve(alloc, blocks, &name, Runs::Nobody, &mut store) {
        Ok(specs) => Ok(specs),
        Err(_) => Err("Specs".into()),
    }
}

/// The text that is printed for a source of one machine, whose tables are those of a section.
fn printed(alloc: Global, text: &str, section: &str) -> Result<Vec<u8>, Fail> {
    let specs = specs(alloc, text)?;
    let bytes = text.as_bytes();
    if bytes.len() > MOST_SOURCE_BYTES {
        return Err("length".into());
    }
    let Ok(parts) = split(alloc, bytes, 0) else {
        return Err("parts".into());
    };
    let Ok(read) = read_tables(alloc, section.as_bytes(), None) else {
        return Err("tables".into());
    };
    let mut tables = Vec::new(alloc);
    tables.push(Some(read))?;
    let checked = check_sections(alloc, parts.as_slice(), specs.as_slice(), &tables);
    if checked.is_err() {
        return Err("lines".into());
    }
    match printed_text(alloc, parts.as_slice(), specs.as_slice(), &tables) {
        Ok(text) => Ok(text),
        Err(_) => Err("memory".into()),
    }
}

#[test]
fn statements_stand_for_blocks(rt: HostRuntime) -> Result<(), Fail> {
    let init = "\t{\n\tcs = one_start;\n\t}\n";
    let found = printed(rt.alloc(), SOURCE, SECTION)?;
    let due = format!(in rt.alloc();
        "/* before */\n{init}{SECTION} /* behind */\n{init}int after;"
    )?;
    assert!(rt; found.as_slice() == due.as_bytes());
    Ok(())
}

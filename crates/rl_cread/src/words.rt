// The words of C that stand in the line of an array.
ghost use Rattle.std.specs.Prelude.{◌≡◌};
ghost use Rattle.rl_arrays.specs.Section as section;

use rl_arrays::ArrayName;

/// The name of an array, as it is printed (this profile).
pub fn array_word(array: ArrayName) -> &'static [u8]
    ensures { result.now ≡ section.word array }
{
    match array {
        ArrayName::Actions => b"actions",
        ArrayName::KeyOffsets => b"key_offsets",
        ArrayName::TransKeys => b"trans_keys",
        ArrayName::SingleLengths => b"single_lengths",
        ArrayName::RangeLengths => b"range_lengths",
        ArrayName::CellOffsets => b"cell_offsets",
        ArrayName::CellUses => b"cell_uses",
        ArrayName::CellAsks => b"cell_asks",
        ArrayName::CellEntries => b"cell_entries",
        ArrayName::TransTargs => b"trans_targs",
        ArrayName::TransLists => b"trans_lists",
        ArrayName::FromLists => b"from_lists",
        ArrayName::ToLists => b"to_lists",
        ArrayName::EofLists => b"eof_lists",
        ArrayName::ErrorLists => b"error_lists",
        ArrayName::AcceptLists => b"accept_lists",
        ArrayName::StateKinds => b"state_kinds",
        ArrayName::Homes => b"homes",
        ArrayName::ActionNames => b"action_names",
        ArrayName::StmtFirsts => b"stmt_firsts",
        ArrayName::StmtCounts => b"stmt_counts",
        ArrayName::StmtKinds => b"stmt_kinds",
        ArrayName::StmtOuter => b"stmt_outer",
        ArrayName::StmtArgs => b"stmt_args",
        ArrayName::StmtBases => b"stmt_bases",
        ArrayName::CondNames => b"cond_names",
        ArrayName::EntryNames => b"entry_names",
        ArrayName::EntryStates => b"entry_states",
    }
}

/// The C type of an array's elements (this profile).
pub fn array_type(array: ArrayName) -> &'static [u8]
    ensures { result.now ≡ section.ctype array }
{
    match array {
        ArrayName::TransKeys => b"const long long",
        ArrayName::ActionNames | ArrayName::CondNames | ArrayName::EntryNames =>
            b"const char *const",
        _ => b"const int",
    }
}

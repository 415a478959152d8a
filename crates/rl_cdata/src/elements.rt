//! The elements of an array, with a comma and a blank between them.
ghost use Rattle.std.specs.Prelude.{◌≡◌, ◌++◌, map, codes, OnOk};
ghost use Rattle.std.specs.List.{flat_map};
ghost use Rattle.std.specs.Fmt.{signed_decimal};
ghost use Rattle.rl_arrays.specs.Section.{comma, joined, quoted, elements};
ghost use Rattle.rl_cread.specs.Contents.{content};
ghost use Rattle.rl_cdata.specs.Texts.{texts, shown};

use itoa::Buffer;
use rl_arrays::{ArrayName, Arrays};
use rl_types::Name;
use std::alloc::AllocError;

/// The elements of an array: they are numbers, or names.
#[derive(Clone, Copy, Drop)]
pub(crate) enum Elements<'a> {
    Numbers(&'a [i64]),
    Names(&'a [Name]),
}

/// The elements of an array.
pub(crate) fn elements_of(a: &Arrays, array: ArrayName) -> Elements
    ensures value { texts result ≡ elements a.now array }
    ensures kind { shown result ≡ content a.now array }
{
    match array {
        ArrayName::Actions => Elements::Numbers(a.actions.as_slice()),
        ArrayName::KeyOffsets => Elements::Numbers(a.key_offsets.as_slice()),
        ArrayName::TransKeys => Elements::Numbers(a.trans_keys.as_slice()),
        ArrayName::SingleLengths => Elements::Numbers(a.single_lengths.as_slice()),
        ArrayName::RangeLengths => Elements::Numbers(a.range_lengths.as_slice()),
        ArrayName::CellOffsets => Elements::Numbers(a.cell_offsets.as_slice()),
        ArrayName::CellUses => Elements::Numbers(a.cell_uses.as_slice()),
        ArrayName::CellAsks => Elements::Numbers(a.cell_asks.as_slice()),
        ArrayName::CellEntries => Elements::Numbers(a.cell_entries.as_slice()),
        ArrayName::TransTargs => Elements::Numbers(a.trans_targs.as_slice()),
        ArrayName::TransLists => Elements::Numbers(a.trans_lists.as_slice()),
        ArrayName::FromLists => Elements::Numbers(a.from_lists.as_slice()),
        ArrayName::ToLists => Elements::Numbers(a.to_lists.as_slice()),
        ArrayName::EofLists => Elements::Numbers(a.eof_lists.as_slice()),
        ArrayName::ErrorLists => Elements::Numbers(a.error_lists.as_slice()),
        ArrayName::AcceptLists => Elements::Numbers(a.accept_lists.as_slice()),
        ArrayName::StateKinds => Elements::Numbers(a.state_kinds.as_slice()),
        ArrayName::Homes => Elements::Numbers(a.homes.as_slice()),
        ArrayName::ActionNames => Elements::Names(a.action_names.as_slice()),
        ArrayName::StmtFirsts => Elements::Numbers(a.stmt_firsts.as_slice()),
        ArrayName::StmtCounts => Elements::Numbers(a.stmt_counts.as_slice()),
        ArrayName::StmtKinds => Elements::Numbers(a.stmt_kinds.as_slice()),
        ArrayName::StmtOuter => Elements::Numbers(a.stmt_outer.as_slice()),
        ArrayName::StmtArgs => Elements::Numbers(a.stmt_args.as_slice()),
        ArrayName::StmtBases => Elements::Numbers(a.stmt_bases.as_slice()),
        ArrayName::CondNames => Elements::Names(a.cond_names.as_slice()),
        ArrayName::EntryNames => Elements::Names(a.entry_names.as_slice()),
        ArrayName::EntryStates => Elements::Numbers(a.entry_states.as_slice()),
    }
}

/// Writes a number.
pub(crate) fn push_number(text: &mut Vec<u8>, number: i64) -> Result<(), AllocError>
    ensures { OnOk result (text.new.items ≡ text.old.items ++ signed_decimal number) }
{
    text.extend_from_slice(Buffer::new().format(number).as_bytes())
}

/// Writes a name between double quotes.
fn push_quoted(text: &mut Vec<u8>, name: &[u8]) -> Result<(), AllocError>
    ensures { OnOk result (text.new.items ≡ text.old.items ++ quoted name.now) }
{
    text.extend_from_slice(b"\"")?;
    text.extend_from_slice(name)?;
    text.extend_from_slice(b"\"")
}

/// Writes numbers, each behind a comma.
fn push_more_numbers(text: &mut Vec<u8>, numbers: &[i64]) -> Result<(), AllocError>
    ensures { OnOk result (text.new.items ≡ text.old.items ++ flat_map comma (map signed_decimal numbers.now)) }
{
    for number in numbers {
        text.extend_from_slice(b", ")?;
        push_number(text, *number)?;
    }
    Ok(())
}

/// Writes numbers, with commas between them.
fn push_numbers(text: &mut Vec<u8>, numbers: &[i64]) -> Result<(), AllocError>
    ensures { OnOk result (text.new.items ≡ text.old.items ++ joined (map signed_decimal numbers.now)) }
{
    match numbers {
        [] => Ok(()),
        [first, rest @ ..] => {
            push_number(text, *first)?;
            push_more_numbers(text, rest)
        }
    }
}

/// Writes names between double quotes, each behind a comma.
fn push_more_names(text: &mut Vec<u8>, names: &[Name]) -> Result<(), AllocError>
    ensures { OnOk result (text.new.items ≡ text.old.items ++ flat_map comma (map quoted names.now)) }
{
    for name in names {
        text.extend_from_slice(b", ")?;
        push_quoted(text, name.bytes())?;
    }
    Ok(())
}

/// Writes names between double quotes, with commas between them.
fn push_names(text: &mut Vec<u8>, names: &[Name]) -> Result<(), AllocError>
    ensures { OnOk result (text.new.items ≡ text.old.items ++ joined (map quoted names.now)) }
{
    match names {
        [] => Ok(()),
        [first, rest @ ..] => {
            push_quoted(text, first.bytes())?;
            push_more_names(text, rest)
        }
    }
}

/// Writes the elements of an array, with commas between them.
pub(crate) fn push_elements(text: &mut Vec<u8>, elements: &Elements) -> Result<(), AllocError>
    ensures { OnOk result (text.new.items ≡ text.old.items ++ joined (texts elements.now)) }
{
    match *elements {
        Elements::Numbers(numbers) => push_numbers(text, numbers),
        Elements::Names(names) => push_names(text, names),
    }
}

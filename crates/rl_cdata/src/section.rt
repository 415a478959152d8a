//! The whole section.
ghost use Rattle.std.specs.Prelude.{◌≡◌, ◌++◌, OnOk, IfOk};
ghost use Rattle.rl_arrays.specs.Section.{section};
ghost use Rattle.rl_arrays.specs.Valid.{Valid};
ghost use Rattle.rl_cread.specs.Contents.{HasNumbers};
ghost use Rattle.rl_cdata.specs.Printed.{IsReadBack};

use crate::arrays::push_arrays;
use crate::fits::all_fit;
use crate::head::{push_entries, push_head, push_last_line};
use rl_arrays::Arrays;
use rl_tables::Tables;
use rl_types::Memory;
use std::alloc::{AllocError, Global};

/// Writes the section of arrays.
fn push_section(text: &mut Vec<u8>, a: &Arrays) -> Result<(), AllocError>
    ensures { OnOk result (text.new.items ≡ text.old.items ++ section a.now) }
{
    push_head(text, a)?;
    push_entries(text, a)?;
    push_arrays(text, a)?;
    push_last_line(text, a.name.bytes())?;
    Ok(())
}

/// The section of arrays.
fn section_text(alloc: Global, a: &Arrays) -> Result<Vec<u8>, AllocError>
    requires valid { Valid a.now }
    requires numbers { HasNumbers a.now }
    ensures text { IfOk result (λ v. v.items ≡ section a.now) }
    ensures read { IfOk result (λ v. IsReadBack v.items a.now) }
{
    let mut text = Vec::new(alloc);
    push_section(&mut text, a)?;
    Ok(text)
}

/// The data section of tables, in their version: lines of C that each end with a newline, for the machine's name, its start,
/// its least final state, its alphabet, its entries, and each array (this profile). An `Err` is want of memory.
///
/// The tables are what `read_tables` gives back from a text that holds the section, where whole lines stand before it and none
/// of them begins a section.
pub fn data_text(alloc: Global, tables: &Tables) -> Result<Vec<u8>, Memory>
    ensures text { IfOk result (λ v. v.items ≡ section tables.now) }
    ensures read { IfOk result (λ v. IsReadBack v.items tables.now) }
    ensures numbers { HasNumbers tables.now }
{
    let arrays = tables.arrays();
    all_fit(arrays);
    match section_text(alloc, arrays) {
        Ok(text) => Ok(text),
        Err(_) => Err(Memory),
    }
}

//! The lines of arrays.
ghost use Rattle.std.specs.Prelude.{◌≡◌, ◌++◌, not, map, codes, OnOk};
ghost use Rattle.std.specs.List.{filter, flat_map};
ghost use Rattle.rl_arrays.specs.Sizes.{shares};
ghost use Rattle.rl_arrays.specs.Section as section;
ghost use Rattle.rl_cdata.specs.Texts.{texts, line_of};

use crate::elements::{Elements, elements_of, push_elements};
use crate::head::are_shared;
use rl_arrays::{ArrayName, Arrays, ORDER};
use rl_cread::{array_type, array_word};
use std::alloc::AllocError;

/// Writes what stands in the line of an array before its elements.
fn push_front(text: &mut Vec<u8>, name: &[u8], array: ArrayName) -> Result<(), AllocError>
    ensures { OnOk result (text.new.items ≡ text.old.items ++ section.array_front name.now array) }
{
    text.extend_from_slice(b"static ")?;
    text.extend_from_slice(array_type(array))?;
    text.extend_from_slice(b" _")?;
    text.extend_from_slice(name)?;
    text.extend_from_slice(b"_")?;
    text.extend_from_slice(array_word(array))?;
    text.extend_from_slice(b"[] = { ")
}

/// Writes the line of an array with these elements.
fn push_line(
    text: &mut Vec<u8>,
    name: &[u8],
    array: ArrayName,
    elements: &Elements,
) -> Result<(), AllocError>
    ensures { OnOk result (text.new.items ≡ text.old.items ++ section.line_text (section.array_line name.now array (texts elements.now))) }
{
    push_front(text, name, array)?;
    push_elements(text, elements)?;
    text.extend_from_slice(b" };\n")
}

/// Writes the line of an array.
fn push_array(text: &mut Vec<u8>, a: &Arrays, array: ArrayName) -> Result<(), AllocError>
    ensures { OnOk result (text.new.items ≡ text.old.items ++ section.line_text (line_of a.now array)) }
{
    let elements = elements_of(a, array);
    push_line(text, a.name.bytes(), array, &elements)
}

/// Whether it is the array of uses.
fn is_uses(array: ArrayName) -> bool
    ensures { result ≡ section.is_uses array }
{
    match array {
        ArrayName::CellUses => true,
        _ => false,
    }
}

/// Writes the lines of these arrays.
fn push_all(text: &mut Vec<u8>, a: &Arrays, arrays: &[ArrayName]) -> Result<(), AllocError>
    ensures { OnOk result (text.new.items ≡ text.old.items ++ flat_map section.line_text (map (line_of a.now) arrays.now)) }
{
    for array in arrays {
        push_array(text, a, *array)?;
    }
    Ok(())
}

/// Writes the lines of these arrays but that of uses.
fn push_without_uses(text: &mut Vec<u8>, a: &Arrays, arrays: &[ArrayName]) -> Result<(), AllocError>
    ensures { OnOk result (text.new.items ≡ text.old.items ++ flat_map section.line_text (map (line_of a.now) (filter (λ array. not (section.is_uses array)) arrays.now))) }
{
    for array in arrays {
        if !is_uses(*array) {
            push_array(text, a, *array)?;
        }
    }
    Ok(())
}

/// Writes the lines of all arrays that the version has.
pub(crate) fn push_arrays(text: &mut Vec<u8>, a: &Arrays) -> Result<(), AllocError>
    ensures { OnOk result (text.new.items ≡ text.old.items ++ flat_map section.line_text (map (line_of a.now) (section.printed (shares a.now)))) }
{
    if are_shared(a) {
        push_all(text, a, &ORDER)
    } else {
        push_without_uses(text, a, &ORDER)
    }
}

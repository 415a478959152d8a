//! What stands before and behind what a line says.
ghost use Rattle.std.specs.Prelude.{◌≡◌, ◌++◌, codes, OnOk, IfOk};
ghost use Rattle.rl_arrays.specs.Section as section;
ghost use Rattle.rl_cread.specs.Lines.{label_word};

use crate::said::Label;
use crate::words::{array_type, array_word};
use rl_arrays::ArrayName;
use std::alloc::{AllocError, Global};

pub(crate) fn label_text(label: Label) -> &'static [u8]
    ensures { result.now ≡ label_word label }
{
    match label {
        Label::Start => b"start",
        Label::FirstFinal => b"first_final",
        Label::Alphabet => b"alphabet",
    }
}

/// What stands before the number of a line.
pub(crate) fn number_front(alloc: Global, name: &[u8], label: &[u8]) -> Result<Vec<u8>, AllocError>
    ensures { IfOk result (λ v. v.items ≡ section.number_front name.now label.now) }
{
    let mut front = Vec::from_slice(alloc, b"static const int ")?;
    front.extend_from_slice(name)?;
    front.extend_from_slice(b"_")?;
    front.extend_from_slice(label)?;
    front.extend_from_slice(b" = ")?;
    Ok(front)
}

fn push_word(front: &mut Vec<u8>, name: &[u8], array: ArrayName) -> Result<(), AllocError>
    ensures { OnOk result (front.new.items ≡ front.old.items ++ (name.now ++ (codes "_" ++ (section.word array ++ codes "[] = { ")))) }
{
    front.extend_from_slice(name)?;
    front.extend_from_slice(b"_")?;
    front.extend_from_slice(array_word(array))?;
    front.extend_from_slice(b"[] = { ")
}

/// What stands before the elements of an array.
pub(crate) fn array_front(
    alloc: Global,
    name: &[u8],
    array: ArrayName,
) -> Result<Vec<u8>, AllocError>
    ensures { IfOk result (λ v. v.items ≡ section.array_front name.now array) }
{
    let mut front = Vec::from_slice(alloc, b"static ")?;
    front.extend_from_slice(array_type(array))?;
    front.extend_from_slice(b" _")?;
    push_word(&mut front, name, array)?;
    Ok(front)
}

/// The last line of a section.
pub(crate) fn last_line(alloc: Global, name: &[u8]) -> Result<Vec<u8>, AllocError>
    ensures { IfOk result (λ v. v.items ≡ section.last_line name.now) }
{
    let mut line = Vec::from_slice(alloc, b"/* rl-end ")?;
    line.extend_from_slice(name)?;
    line.extend_from_slice(b" */")?;
    Ok(line)
}

//! Reading a section line by line.
ghost use Rattle.std.specs.Prelude.{◌≡◌, ◌+◌, ◌++◌, ◌<◌, ℕ, ℤ, List, Some, IsTrue, ◌↔◌, IfOk, IfErr, MatchOption, length, map, slice_get, codes, pos};
ghost use Rattle.std.specs.List.{AllByRecursion};
ghost use Rattle.std.specs.Fmt.{signed_decimal};
ghost use Rattle.rl_arrays.specs.Section as section;
ghost use Rattle.rl_cread.specs.Contents.{IsPrintedNumber, IsPrintedName};
ghost use Rattle.rl_cread.specs.Lines.{label_word, ReadsLine, Agrees, Tells};

use crate::elements::{names, numbers};
use crate::entry::entry_in;
use crate::fronts::{array_front, label_text, last_line, number_front};
use crate::numbers::number;
use crate::said::{Form, Label, Said, Stop};
use crate::texts::{between, is_same, line_at};
use rl_arrays::ArrayName;
use rl_types::{List, Name};
use std::alloc::{AllocError, Global};

/// The number that a line before the entries says.
fn number_in(
    alloc: Global,
    name: &[u8],
    label: Label,
    line: &[u8],
) -> Result<Option<i64>, AllocError>
    ensures { IfOk result (λ r. MatchOption r
        ((n : ℤ) → IsPrintedNumber n → line.now ≡ section.number_line name.now (label_word label) n → ⊥)
        (λ n. IsPrintedNumber n × (line.now ≡ section.number_line name.now (label_word label) n))) }
{
    let front = number_front(alloc, name, label_text(label))?;
    match between(line, front.as_slice(), b";") {
        Some(text) => number(alloc, text),
        None => Ok(None),
    }
}

/// The numbers that an array's line says.
fn numbers_in(
    alloc: Global,
    name: &[u8],
    array: ArrayName,
    line: &[u8],
) -> Result<Option<List<i64>>, AllocError>
    ensures { IfOk result (λ r. MatchOption r
        ((ns : List ℤ) → AllByRecursion IsPrintedNumber ns → line.now ≡ section.array_line name.now array (map signed_decimal ns) → ⊥)
        (λ ns. AllByRecursion IsPrintedNumber ns × (line.now ≡ section.array_line name.now array (map signed_decimal ns)))) }
{
    let front = array_front(alloc, name, array)?;
    match between(line, front.as_slice(), b" };") {
        Some(text) => numbers(alloc, text),
        None => Ok(None),
    }
}

/// The names that an array's line says.
fn names_in(
    alloc: Global,
    name: &[u8],
    array: ArrayName,
    line: &[u8],
) -> Result<Option<List<Name>>, AllocError>
    ensures { IfOk result (λ r. MatchOption r
        ((names : List (List ℕ)) → AllByRecursion IsPrintedName names → line.now ≡ section.array_line name.now array (map section.quoted names) → ⊥)
        (λ names. AllByRecursion IsPrintedName names × (line.now ≡ section.array_line name.now array (map section.quoted names)))) }
{
    let front = array_front(alloc, name, array)?;
    match between(line, front.as_slice(), b" };") {
        Some(text) => names(alloc, text),
        None => Ok(None),
    }
}

/// Whether a line is that of the state Error.
fn is_error(alloc: Global, name: &[u8], line: &[u8]) -> Result<bool, AllocError>
    ensures { IfOk result (λ yes. IsTrue yes ↔ (line.now ≡ section.number_line name.now (codes "error") (pos 0))) }
{
    let mut due = number_front(alloc, name, b"error")?;
    due.extend_from_slice(b"0;")?;
    Ok(is_same(line, due.as_slice()))
}

/// Whether a line is the last one.
fn is_last(alloc: Global, name: &[u8], line: &[u8]) -> Result<bool, AllocError>
    ensures { IfOk result (λ yes. IsTrue yes ↔ (line.now ≡ section.last_line name.now)) }
{
    let due = last_line(alloc, name)?;
    Ok(is_same(line, due.as_slice()))
}

/// What a line says, if it has this form.
fn read_line(
    alloc: Global,
    name: &[u8],
    form: Form,
    line: &[u8],
) -> Result<Option<Said>, AllocError>
    ensures { IfOk result (ReadsLine name.now form line.now) }
{
    match form {
        Form::Number(label) => match number_in(alloc, name, label, line)? {
            Some(number) => Ok(Some(Said::Number(label, number))),
            None => Ok(None),
        },
        Form::Error => {
            if is_error(alloc, name, line)? {
                Ok(Some(Said::Error))
            } else {
                Ok(None)
            }
        }
        Form::Entry => match entry_in(alloc, name, line)? {
            Some((entry, state)) => Ok(Some(Said::Entry(entry, state))),
            None => Ok(None),
        },
        Form::Numbers(array) => match numbers_in(alloc, name, array, line)? {
            Some(numbers) => Ok(Some(Said::Numbers(array, numbers))),
            None => Ok(None),
        },
        Form::Names(array) => match names_in(alloc, name, array, line)? {
            Some(names) => Ok(Some(Said::Names(array, names))),
            None => Ok(None),
        },
        Form::Last => {
            if is_last(alloc, name, line)? {
                Ok(Some(Said::Last))
            } else {
                Ok(None)
            }
        }
    }
}

fn form_at(forms: &[Form], i: usize) -> Form
    requires { i < length forms.now }
    ensures { slice_get forms.now i ≡ Some result }
{
    forms[i]
}

/// What lines of these forms say: the text of a section, and of nothing else.
pub(crate) fn read_lines(
    alloc: Global,
    name: &[u8],
    forms: &[Form],
    lines: &[&[u8]],
) -> Result<Vec<Said>, Stop>
    ensures found { IfOk result (λ v. Agrees name.now forms.now (map (λ line. line.now) lines.now) (length forms.now) v.items) }
    ensures bad { IfErr result (Tells name.now forms.now (map (λ line. line.now) lines.now)) }
{
    let mut found = Vec::new(alloc);
    for i in 0..forms.len() {
        let form = form_at(forms, i);
        let Some(line) = line_at(lines, i) else {
            return Err(Stop::BadLine(i as u64))
        };
        let Some(said) = read_line(alloc, name, form, line)? else {
            return Err(Stop::BadLine(i as u64));
        };
        found.push(said)?;
    }
    Ok(found)
}

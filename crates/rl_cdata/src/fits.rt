//! The numbers of arrays fit 64 bits, as their type says: a contract knows it once they are read.
ghost use Rattle.std.specs.List.{AllByRecursion};
ghost use Rattle.rl_arrays.specs.declared.arrays.ArrayName.{ArrayName};
ghost use Rattle.rl_cread.specs.Contents.{content, AreNumbers, HasNumbers, IsPrintedNumber};
ghost use Rattle.rl_cdata.specs.Texts.{shown};

use crate::elements::{Elements, elements_of};
use rl_arrays::{ArrayName, Arrays, ORDER};

/// The numbers of a list fit.
fn numbers_fit(numbers: &[i64])
    ensures { AllByRecursion IsPrintedNumber numbers.now }
{
    for number in numbers {
        let _value = *number;
    }
}

/// The elements of an array fit, where they are numbers.
fn elements_fit(elements: &Elements)
    ensures { AreNumbers (shown elements.now) }
{
    match *elements {
        Elements::Numbers(numbers) => numbers_fit(numbers),
        Elements::Names(_) => {}
    }
}

/// The elements of this array fit, where they are numbers.
fn array_fits(a: &Arrays, array: ArrayName)
    ensures { AreNumbers (content a.now array) }
{
    let elements = elements_of(a, array);
    elements_fit(&elements)
}

/// The elements of these arrays fit, where they are numbers.
fn each_fits(a: &Arrays, arrays: &[ArrayName])
    ensures { AllByRecursion (λ array. AreNumbers (content a.now array)) arrays.now }
{
    for array in arrays {
        array_fits(a, *array);
    }
}

/// The numbers of all arrays fit, and so do those of the lines before them. It takes no memory.
pub fn all_fit(a: &Arrays)
    ensures { HasNumbers a.now }
{
    let _before = (a.start, a.first_final, a.alphabet);
    each_fits(a, &ORDER)
}

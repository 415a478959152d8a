// The built-in machines.
ghost use Rattle.std.specs.Prelude.{◌≡◌, ◌∷◌, [], ◌≤◌, IfOk, is_some};
ghost use Rattle.rl_types.specs.Alphabet.{least_key, greatest_key};
ghost use Rattle.rl_draft.specs.declared.expression.Leaf.TheVariants as leaf;
ghost use Rattle.rl_leaves.specs.BuiltIns.{codes_between, byte_range, built_in_named, built_in_leaf};
ghost use Rattle.rl_leaves.specs.Forms.{IsLeaf};

use crate::ranges::range_between;
use rl_draft::Leaf;
use rl_types::{Alphabet, KeyRange, List, Memory};
use std::alloc::Global;

/// A built-in machine (the guide's section 2.3.1; `Cntrl` and `Null` as this profile has them).
#[derive(Clone, Copy, Debug, PartialEq, Eq)]
pub enum BuiltIn {
    /// `any`: any character
    Any,
    /// `ascii`: 0 to 127
    Ascii,
    /// `extend`: -128 to 127 under a signed alphabet, 0 to 255 under an unsigned one
    Extend,
    /// `alpha`: ASCII letters
    Alpha,
    /// `digit`: decimal digits
    Digit,
    /// `alnum`: ASCII letters and digits
    Alnum,
    /// `lower`: small ASCII letters
    Lower,
    /// `upper`: capital ASCII letters
    Upper,
    /// `punct`: what `graph` has without `alnum`
    Punct,
    /// `graph`: 33 to 126
    Graph,
    /// `print`: 32 to 126
    Print,
    /// `space`: the blank and 9 to 13
    Space,
    /// `xdigit`: hexadecimal digits
    Xdigit,
    /// `cntrl`: 0 to 31
    Cntrl,
    /// `zlen`: the empty word
    Zlen,
    /// `null`: the empty word
    Null,
    /// `empty`: no word
    Empty,
}

/// The built-in machine of a name, and None where it has none.
pub fn built_in_named(name: &[u8]) -> Option<BuiltIn>
    ensures { result ≡ built_in_named name.now }
{
    if name == b"any".as_slice() {
        Some(BuiltIn::Any)
    } else if name == b"ascii".as_slice() {
        Some(BuiltIn::Ascii)
    } else if name == b"extend".as_slice() {
        Some(BuiltIn::Extend)
    } else if name == b"alpha".as_slice() {
        Some(BuiltIn::Alpha)
    } else if name == b"digit".as_slice() {
        Some(BuiltIn::Digit)
    } else if name == b"alnum".as_slice() {
        Some(BuiltIn::Alnum)
    } else if name == b"lower".as_slice() {
        Some(BuiltIn::Lower)
    } else if name == b"upper".as_slice() {
        Some(BuiltIn::Upper)
    } else if name == b"punct".as_slice() {
        Some(BuiltIn::Punct)
    } else if name == b"graph".as_slice() {
        Some(BuiltIn::Graph)
    } else if name == b"print".as_slice() {
        Some(BuiltIn::Print)
    } else if name == b"space".as_slice() {
        Some(BuiltIn::Space)
    } else if name == b"xdigit".as_slice() {
        Some(BuiltIn::Xdigit)
    } else if name == b"cntrl".as_slice() {
        Some(BuiltIn::Cntrl)
    } else if name == b"zlen".as_slice() {
        Some(BuiltIn::Zlen)
    } else if name == b"null".as_slice() {
        Some(BuiltIn::Null)
    } else if name == b"empty".as_slice() {
        Some(BuiltIn::Empty)
    } else {
        None
    }
}

/// Whether a name is that of a built-in machine.
pub fn is_built_in(name: &[u8]) -> bool
    ensures { result ≡ is_some (built_in_named name.now) }
{
    built_in_named(name).is_some()
}

/// The keys of the codes from one to another.
fn codes(first: u8, last: u8) -> KeyRange
    requires { first ≤ last }
    ensures { result ≡ codes_between first last }
{
    range_between(i64::from(first), i64::from(last))
}

/// All keys.
fn every_key(alphabet: Alphabet) -> KeyRange
    ensures { result ≡ record { lo = least_key alphabet; hi = greatest_key alphabet } }
{
    range_between(alphabet.least_key(), alphabet.greatest_key())
}

/// What one byte can say under the alphabet.
fn byte_range(alphabet: Alphabet) -> KeyRange
    ensures { result ≡ byte_range alphabet }
{
    match alphabet {
        Alphabet::Char | Alphabet::Short | Alphabet::Int => range_between(-128, 127),
        Alphabet::UnsignedChar | Alphabet::UnsignedShort | Alphabet::UnsignedInt => codes(0, 255),
    }
}

/// A character of these ranges. An `Err` is want of memory.
fn set_of(alloc: Global, ranges: &[KeyRange]) -> Result<Leaf, Memory>
    ensures { IfOk result (λ made. made ≡ leaf.Set ranges.now) }
{
    match List::from_slice(alloc, ranges) {
        Ok(ranges) => Ok(Leaf::Set(ranges)),
        Err(_) => Err(Memory),
    }
}

fn keys_of(alloc: Global, alphabet: Alphabet, built_in: BuiltIn) -> Result<Leaf, Memory>
    ensures { IfOk result (λ made. made ≡ built_in_leaf alphabet built_in) }
{
    match built_in {
        BuiltIn::Any => set_of(alloc, &[every_key(alphabet)]),
        BuiltIn::Extend => set_of(alloc, &[byte_range(alphabet)]),
        BuiltIn::Ascii => set_of(alloc, &[codes(0, 127)]),
        BuiltIn::Alpha => set_of(alloc, &[codes(b'A', b'Z'), codes(b'a', b'z')]),
        BuiltIn::Digit => set_of(alloc, &[codes(b'0', b'9')]),
        BuiltIn::Alnum => set_of(
            alloc,
            &[codes(b'0', b'9'), codes(b'A', b'Z'), codes(b'a', b'z')],
        ),
        BuiltIn::Lower => set_of(alloc, &[codes(b'a', b'z')]),
        BuiltIn::Upper => set_of(alloc, &[codes(b'A', b'Z')]),
        BuiltIn::Punct => set_of(
            alloc,
            &[codes(33, 47), codes(58, 64), codes(91, 96), codes(123, 126)],
        ),
        BuiltIn::Graph => set_of(alloc, &[codes(33, 126)]),
        BuiltIn::Print => set_of(alloc, &[codes(32, 126)]),
        BuiltIn::Space => set_of(alloc, &[codes(9, 13), codes(b' ', b' ')]),
        BuiltIn::Xdigit => set_of(
            alloc,
            &[codes(b'0', b'9'), codes(b'A', b'F'), codes(b'a', b'f')],
        ),
        BuiltIn::Cntrl => set_of(alloc, &[codes(0, 31)]),
        BuiltIn::Zlen | BuiltIn::Null => Ok(Leaf::Null),
        BuiltIn::Empty => Ok(Leaf::Nothing),
    }
}

/// What a built-in machine says. An `Err` is want of memory.
pub fn built_in_leaf(alloc: Global, alphabet: Alphabet, built_in: BuiltIn) -> Result<Leaf, Memory>
    ensures value { IfOk result (λ made. made ≡ built_in_leaf alphabet built_in) }
    ensures form { IfOk result (IsLeaf alphabet) }
{
    keys_of(alloc, alphabet, built_in)
}

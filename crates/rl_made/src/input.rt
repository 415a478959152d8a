// The made input.
ghost use Rattle.std.specs.Prelude.{◌≡◌, ◌≤◌, ◌+◌, ◌%◌, ◌++◌, ◌∷◌, [], OnOk, IfOk, decimal};
ghost use Rattle.std.proofs.Math.ListN.{replicate};
ghost use Rattle.rl_made.specs.Made as spec;
ghost use Rattle.rl_made.specs.Made.{made_line};

use itoa::Buffer;
use rl_types::Memory;
use std::alloc::Global;

// The letters of the line of a number, and the blank behind them.
fn letters(number: u32) -> &'static [u8]
    ensures { result.now ≡ replicate (number % 5 + 1) 97 ++ 32 ∷ [] }
{
    match number % 5 {
        0 => b"a ",
        1 => b"aa ",
        2 => b"aaa ",
        3 => b"aaaa ",
        _ => b"aaaaa ",
    }
}

pub fn push(out: &mut Vec<u8>, text: &[u8]) -> Result<(), Memory>
    ensures { OnOk result (out.new.items ≡ out.old.items ++ text.now) }
{
    out.extend_from_slice(text).map_err(|_| Memory)
}

pub fn push_number(out: &mut Vec<u8>, number: u64) -> Result<(), Memory>
    ensures { OnOk result (out.new.items ≡ out.old.items ++ decimal number) }
{
    push(out, Buffer::new().format(number).as_bytes())
}

// Adds the line of a number.
fn push_line(input: &mut Vec<u8>, number: u32) -> Result<(), Memory>
    ensures { OnOk result (input.new.items ≡ input.old.items ++ made_line number) }
{
    push(input, letters(number))?;
    push_number(input, u64::from(number))?;
    push(input, b"\n")
}

// The input of so many lines.
pub fn made_input(alloc: Global, lines: u32) -> Result<Vec<u8>, Memory>
    ensures { IfOk result (λ v. v.items ≡ spec.made_input lines) }
{
    let mut input = Vec::new(alloc);
    for number in 0..lines {
        push_line(&mut input, number)?;
    }
    Ok(input)
}

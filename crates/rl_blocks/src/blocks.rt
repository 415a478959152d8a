// One block after another.
ghost use Rattle.std.specs.Prelude.{◌≡◌, ◌≤◌, ◌<◌, ◌+◌, ◌-◌, length, IfOk, IsSome, Err, true, false};
ghost use Rattle.rl_types.specs.Limits.{most_input_bytes};
ghost use Rattle.rl_io.specs.Outside.{HasCause};
ghost use Rattle.rl_blocks.specs.Blocks.{TakesBlock, IsLonger};

use rl_io::Source;
use rl_types::MOST_INPUT_BYTES;

/// Why an input gives no block more.
#[derive(Clone, Copy, Debug, PartialEq, Eq)]
pub enum InputFault {
    /// The source failed, and counted it.
    Failed,
    /// L12: the input has more than 1,099,511,627,776 bytes.
    TooLong,
}

// Whether so many bytes more are too many.
fn is_too_long(count: u64, more: usize) -> bool
    requires { count ≤ most_input_bytes }
    ensures over { result ≡ true → most_input_bytes - count < more }
    ensures within { result ≡ false → count + more ≤ most_input_bytes }
{
    more as u64 > MOST_INPUT_BYTES - count
}

/// Reads the next bytes of an input, of which `count` bytes were read before, to the front of a block, and answers how
/// many they are; 0 exactly where the input is at its end. It asks the source once and takes no memory. `Failed` comes
/// only where the source failed, which takes no byte; it is no end of the input. `TooLong` comes exactly where more
/// bytes than an input may have were read with these (this profile).
pub fn next_block<I: Source>(
    input: &mut I,
    block: &mut [u8],
    count: u64,
) -> Result<usize, InputFault>
    requires room { 0 < length block.old }
    requires small { count ≤ most_input_bytes }
    ensures bytes { IfOk result (λ n. TakesBlock (I.left input.old) (I.left input.new) n block.new) }
    ensures bound { IfOk result (λ n. n ≤ length block.old) }
    ensures small { IfOk result (λ n. count + n ≤ most_input_bytes) }
    ensures too_long { result ≡ Err InputFault.TooLong → IsLonger (I.left input.old) (most_input_bytes - count) }
    ensures failed { result ≡ Err InputFault.Failed → I.left input.new ≡ I.left input.old }
    ensures told { IsSome (I.left input.old) → IsSome (I.left input.new) }
    ensures cause { HasCause (I.faults input.old) (I.faults input.new) (result ≡ Err InputFault.Failed) }
    ensures size { length block.new ≡ length block.old }
{
    let Ok(more) = input.read(block) else {
        return Err(InputFault::Failed);
    };
    if is_too_long(count, more) {
        return Err(InputFault::TooLong);
    }
    Ok(more)
}

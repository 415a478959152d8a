//! Names that may be printed.
ghost use Rattle.std.specs.Prelude.{◌≡◌};
ghost use Rattle.rl_cread.specs.Contents.{is_printed_name};

use rl_arrays::is_action_name;

/// Whether the bytes may be printed as an element of an array of names.
pub(crate) fn is_printed(bytes: &[u8]) -> bool
    ensures { result ≡ is_printed_name bytes.now }
{
    bytes.is_empty() || is_action_name(bytes)
}

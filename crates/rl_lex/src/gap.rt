// What stands between tokens.
ghost use Rattle.std.specs.Prelude.{◌≡◌, ◌≤◌, length};
ghost use Rattle.rl_lexical.specs.Gaps.{gap_len};

use crate::bytes::is_blank;

/// How many bytes of blanks and comments the text begins with.
pub fn gap_len(text: &[u8]) -> usize
    ensures value { result ≡ gap_len text.now }
    ensures bound { result ≤ length text.now }
{
    let mut n = 0;
    let mut in_comment = false;
    while n < text.len() {
        let b = text[n];
        if in_comment {
            in_comment = b != b'\n';
        } else if b == b'#' {
            in_comment = true;
        } else if !is_blank(b) {
            return n;
        }
        n += 1;
    }
    n
}

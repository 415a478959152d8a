// The classes of bytes, and how far they go.
ghost use Rattle.std.specs.Prelude.{◌≡◌, ◌≤◌, ◌==◌, length};
ghost use Rattle.std.specs.List.{prefix_len, suffix_len};
ghost use Rattle.rl_arrays.specs.Names.{is_letter, is_digit};
ghost use Rattle.rl_lexical.specs.Bytes.{is_blank, is_line_blank, in_line, in_text, in_word, is_hex_digit, begins};

pub fn is_letter(b: u8) -> bool
    ensures { result ≡ is_letter b }
{
    matches!(b, b'a'..=b'z' | b'A'..=b'Z' | b'_')
}

pub fn is_digit(b: u8) -> bool
    ensures { result ≡ is_digit b }
{
    b.is_ascii_digit()
}

pub fn in_word(b: u8) -> bool
    ensures { result ≡ in_word b }
{
    is_letter(b) || is_digit(b)
}

pub fn is_hex_digit(b: u8) -> bool
    ensures { result ≡ is_hex_digit b }
{
    matches!(b, b'0'..=b'9' | b'a'..=b'f' | b'A'..=b'F')
}

pub fn is_blank(b: u8) -> bool
    ensures { result ≡ is_blank b }
{
    matches!(b, b' ' | 9..=13)
}

pub fn is_line_blank(b: u8) -> bool
    ensures { result ≡ is_line_blank b }
{
    is_blank(b) && b != b'\n'
}

/// How many bytes of words the text begins with.
pub fn word_len(text: &[u8]) -> usize
    ensures value { result ≡ prefix_len in_word text.now }
    ensures bound { result ≤ length text.now }
{
    text.iter().take_while(|b| in_word(**b)).count()
}

/// How many digits the text begins with.
pub fn digits_len(text: &[u8]) -> usize
    ensures value { result ≡ prefix_len is_digit text.now }
    ensures bound { result ≤ length text.now }
{
    text.iter().take_while(|b| is_digit(**b)).count()
}

/// How many hexadecimal digits the text begins with.
pub fn hex_digits_len(text: &[u8]) -> usize
    ensures value { result ≡ prefix_len is_hex_digit text.now }
    ensures bound { result ≤ length text.now }
{
    text.iter().take_while(|b| is_hex_digit(**b)).count()
}

/// How many blanks the text begins with.
pub fn blanks_len(text: &[u8]) -> usize
    ensures value { result ≡ prefix_len is_blank text.now }
    ensures bound { result ≤ length text.now }
{
    text.iter().take_while(|b| is_blank(**b)).count()
}

/// How many blanks the text begins with before the end of its first line.
pub fn line_blanks_len(text: &[u8]) -> usize
    ensures value { result ≡ prefix_len is_line_blank text.now }
    ensures bound { result ≤ length text.now }
{
    text.iter().take_while(|b| is_line_blank(**b)).count()
}

/// How many bytes the first line of the text has.
pub fn line_len(text: &[u8]) -> usize
    ensures value { result ≡ prefix_len in_line text.now }
    ensures bound { result ≤ length text.now }
{
    text.iter().take_while(|b| **b != b'\n').count()
}

/// How many bytes are before the first `;`.
pub fn text_len(text: &[u8]) -> usize
    ensures value { result ≡ prefix_len in_text text.now }
    ensures bound { result ≤ length text.now }
{
    text.iter().take_while(|b| **b != b';').count()
}

/// Whether a byte of a word is the first of the text.
pub fn begins_in_word(text: &[u8]) -> bool
    ensures { result ≡ begins in_word text.now }
{
    match text {
        [] => false,
        [first, ..] => in_word(*first),
    }
}

/// How many blanks the text ends with.
pub fn trailing_blanks_len(text: &[u8]) -> usize
    ensures value { result ≡ suffix_len is_blank text.now }
    ensures bound { result ≤ length text.now }
{
    text.iter().rev().take_while(|b| is_blank(**b)).count()
}

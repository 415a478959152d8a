// The classes of bytes, and how far they go.
ghost use Rattle.std.specs.Prelude.{◌≡◌, ◌≤◌, ◌==◌, length};
ghost use Rattle.std.specs.List.{list_all, prefix_len};
ghost use Rattle.rl_arrays.specs.Names.{is_letter, is_digit};
ghost use Rattle.rl_lexical.specs.Bytes.{is_blank, in_word};
ghost use Rattle.rl_code.specs.Texts as texts;

fn is_letter(b: u8) -> bool
    ensures { result ≡ is_letter b }
{
    matches!(b, b'a'..=b'z' | b'A'..=b'Z' | b'_')
}

/// Whether the byte is a decimal digit.
pub fn is_digit(b: u8) -> bool
    ensures { result ≡ is_digit b }
{
    b.is_ascii_digit()
}

/// Whether the byte stands in words: a letter, `_` or a digit.
pub fn in_word(b: u8) -> bool
    ensures { result ≡ in_word b }
{
    is_letter(b) || is_digit(b)
}

/// Whether the byte is a blank: a space, or one of tab, newline, vertical tab, form feed and carriage return.
pub fn is_blank(b: u8) -> bool
    ensures { result ≡ is_blank b }
{
    matches!(b, b' ' | 9..=13)
}

/// How many bytes of words the text begins with.
pub fn word_len(text: &[u8]) -> usize
    ensures value { result ≡ prefix_len in_word text.now }
    ensures bound { result ≤ length text.now }
{
    text.iter().take_while(|b| in_word(**b)).count()
}

/// How many digits the text begins with.
pub fn digits_len(text: &[u8]) -> usize
    ensures value { result ≡ prefix_len is_digit text.now }
    ensures bound { result ≤ length text.now }
{
    text.iter().take_while(|b| is_digit(**b)).count()
}

/// How many blanks the text begins with.
pub fn blanks_len(text: &[u8]) -> usize
    ensures value { result ≡ prefix_len is_blank text.now }
    ensures bound { result ≤ length text.now }
{
    text.iter().take_while(|b| is_blank(**b)).count()
}

/// Whether all bytes of the text are blanks.
pub fn are_blanks(text: &[u8]) -> bool
    ensures { result ≡ texts.are_blanks text.now }
{
    text.iter().all(|b| is_blank(*b))
}

/// The text without the blanks that it begins with.
pub fn behind_blanks(text: &[u8]) -> &[u8]
    ensures { result.now ≡ texts.behind_blanks text.now }
{
    &text[blanks_len(text)..]
}

/// The word that a text begins with, and what stands behind it.
pub fn cut_word(text: &[u8]) -> (&[u8], &[u8])
    ensures word { result.0.now ≡ texts.first_word text.now }
    ensures behind { result.1.now ≡ texts.behind_word text.now }
    ensures bound { length result.1.now ≤ length text.now }
{
    text.split_at(word_len(text))
}

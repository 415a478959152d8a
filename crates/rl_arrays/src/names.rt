// Which bytes are names.
ghost use Rattle.std.specs.Prelude.{◌≡◌, ◌==◌, ◌&&◌, ◌||◌, length, codes, map};
ghost use Rattle.std.specs.List.{list_all, list_any, slice_split};
ghost use Rattle.std.specs.Str.{bytes_eq};
ghost use Rattle.rl_arrays.specs.Names as form;

fn is_digit(b: u8) -> bool
    ensures { result ≡ form.is_digit b }
{
    b >= 48 && b <= 57
}

fn is_letter(b: u8) -> bool
    ensures { result ≡ form.is_letter b }
{
    (b >= 65 && b <= 90) || (b >= 97 && b <= 122) || b == 95
}

// Whether all are letters or digits.
fn are_letters(bytes: &[u8]) -> bool
    ensures { result ≡ list_all (λ b. form.is_letter b || form.is_digit b) bytes.now }
{
    bytes.iter().all(|b| is_letter(*b) || is_digit(*b))
}

fn is_word(bytes: &[u8]) -> bool
    ensures { result ≡ form.is_word bytes.now }
{
    match bytes {
        [] => false,
        [first, rest @ ..] => is_letter(*first) && are_letters(rest),
    }
}

fn is_text(bytes: &[u8], text: &str) -> bool
    ensures { result ≡ bytes_eq bytes.now text.now }
{
    bytes == text.as_bytes()
}

fn is_reserved(bytes: &[u8]) -> bool
    ensures { result ≡ list_any (bytes_eq bytes.now) form.reserved }
{
    is_text(bytes, "machine")
        || is_text(bytes, "include")
        || is_text(bytes, "alphtype")
        || is_text(bytes, "access")
        || is_text(bytes, "variable")
        || is_text(bytes, "write")
        || is_text(bytes, "action")
        || is_text(bytes, "when")
        || is_text(bytes, "inwhen")
        || is_text(bytes, "outwhen")
        || is_text(bytes, "import")
        || is_text(bytes, "export")
        || is_text(bytes, "exports")
        || is_text(bytes, "getkey")
        || is_text(bytes, "prepush")
        || is_text(bytes, "postpop")
}

/// Whether the bytes are a name: a letter or `_`, then letters, digits and `_`, and no reserved word (the guide's
/// section 2.2; which words are reserved is this profile).
pub fn is_name(bytes: &[u8]) -> bool
    ensures { result ≡ form.is_name bytes.now }
{
    is_word(bytes) && !is_reserved(bytes)
}

fn are_digits(bytes: &[u8]) -> bool
    ensures { result ≡ list_all form.is_digit bytes.now }
{
    bytes.iter().all(|b| is_digit(*b))
}

fn is_number(bytes: &[u8]) -> bool
    ensures { result ≡ form.is_number bytes.now }
{
    match bytes {
        [] => false,
        [only] => is_digit(*only),
        [first, rest @ ..] => is_digit(*first) && *first != 48 && are_digits(rest),
    }
}

// How many parts there are between the `:`.
fn part_count(bytes: &[u8]) -> usize
    ensures { result ≡ length (form.parts bytes.now) }
{
    bytes.split(|b| *b == 58).count()
}

// Whether the parts are numbers.
fn are_parts_numbers(bytes: &[u8]) -> bool
    ensures { result ≡ list_all form.is_number (form.parts bytes.now) }
{
    bytes.split(|b| *b == 58).all(|part| is_number(part))
}

// Whether the bytes are two or three numbers with `:` between.
fn are_numbers(bytes: &[u8]) -> bool
    ensures { result ≡ form.are_numbers (form.parts bytes.now) }
{
    let count = part_count(bytes);
    if count == 2 || count == 3 {
        are_parts_numbers(bytes)
    } else {
        false
    }
}

fn is_place(bytes: &[u8]) -> bool
    ensures { result ≡ form.is_place bytes.now }
{
    match bytes {
        [] => false,
        [first, rest @ ..] => *first == 64 && are_numbers(rest),
    }
}

/// Whether the bytes are the name of an action or of a condition: a name, or `@` and two or three numbers, the place of
/// one that has no name (this profile).
pub fn is_action_name(bytes: &[u8]) -> bool
    ensures { result ≡ form.is_action_name bytes.now }
{
    is_name(bytes) || is_place(bytes)
}

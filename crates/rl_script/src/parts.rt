// Texts cut into lines, words and other parts.
ghost use Rattle.std.specs.Prelude.{◌≡◌, ◌<◌, ◌==◌, [], ◌∷◌, length, true, IsTrue, MatchOption, IfSome, position};
ghost use Rattle.rl_replay.specs.Script.{lines_of};
ghost use Rattle.rl_script.specs.Parts.{parts_at, words, is_one_word, AreNotFour};

fn place_of(text: &[u8], separator: u8) -> Option<usize>
    ensures { result ≡ position (λ b. b == separator) text.now }
{
    text.iter().position(|b| *b == separator)
}

/// The first line of a text, and what stands behind it.
pub fn next_line(text: &[u8]) -> Option<(&[u8], &[u8])>
    ensures lines { MatchOption result (lines_of text.now ≡ []) (λ p. lines_of text.now ≡ p.0.now ∷ lines_of p.1.now) }
    ensures shorter { IfSome result (λ p. length p.1.now < length text.now) }
{
    if text.is_empty() {
        return None;
    }
    match place_of(text, b'\n') {
        Some(end) => Some((&text[..end], &text[end + 1..])),
        None => Some((text, &[])),
    }
}

/// What stands before the first byte that separates, and what stands behind it. None where the text is one part.
pub fn cut_at(text: &[u8], separator: u8) -> Option<(&[u8], &[u8])>
    ensures parts { MatchOption result
        (parts_at separator text.now ≡ text.now ∷ [])
        (λ p. parts_at separator text.now ≡ p.0.now ∷ parts_at separator p.1.now) }
    ensures shorter { IfSome result (λ p. length p.1.now < length text.now) }
{
    match place_of(text, separator) {
        Some(place) => Some((&text[..place], &text[place + 1..])),
        None => None,
    }
}

/// Whether a text is one word, which has a byte.
pub fn is_one_word(text: &[u8]) -> bool
    ensures value { result ≡ is_one_word (words text.now) }
    ensures word { result ≡ true → words text.now ≡ text.now ∷ [] }
{
    match cut_at(text, b' ') {
        Some(_) => false,
        None => !text.is_empty(),
    }
}

/// The words of an answer: the session and the name of the call, which of its calls it is, and what is answered.
#[derive(Clone, Copy)]
pub struct AnswerWords<'a> {
    pub session: &'a [u8],
    pub name: &'a [u8],
    pub count: &'a [u8],
    pub answer: &'a [u8],
}

/// The words of a text, where they are four.
pub fn answer_words(text: &[u8]) -> Option<AnswerWords<'_>>
    ensures { MatchOption result
        (AreNotFour (words text.now))
        (λ w. words text.now ≡ w.session.now ∷ w.name.now ∷ w.count.now ∷ w.answer.now ∷ []) }
{
    let (session, rest) = cut_at(text, b' ')?;
    let (name, rest) = cut_at(rest, b' ')?;
    let (count, answer) = cut_at(rest, b' ')?;
    match cut_at(answer, b' ') {
        Some(_) => None,
        None => Some(AnswerWords {
            session,
            name,
            count,
            answer,
        }),
    }
}

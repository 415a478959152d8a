// Words and integers.
ghost use Rattle.std.specs.Prelude.{◌≡◌};
ghost use Rattle.std.specs.List.{list_any};
ghost use Rattle.std.specs.Str.{bytes_eq};
ghost use Rattle.rl_arrays.specs.Names.{reserved};
ghost use Rattle.rl_lexical.specs.Signs.{named};
ghost use Rattle.rl_lexical.specs.Words.{keywords, word_kind, is_variable};

use rl_grammar::TokenKind;

/// The keyword that a word is.
fn keyword(word: &[u8]) -> Option<TokenKind>
    ensures { result ≡ named keywords word.now }
{
    if word == b"machine".as_slice() {
        Some(TokenKind::Machine)
    } else if word == b"include".as_slice() {
        Some(TokenKind::Include)
    } else if word == b"alphtype".as_slice() {
        Some(TokenKind::Alphtype)
    } else if word == b"access".as_slice() {
        Some(TokenKind::Access)
    } else if word == b"variable".as_slice() {
        Some(TokenKind::Variable)
    } else if word == b"write".as_slice() {
        Some(TokenKind::Write)
    } else if word == b"action".as_slice() {
        Some(TokenKind::Action)
    } else if word == b"when".as_slice() {
        Some(TokenKind::When)
    } else {
        None
    }
}

fn is_reserved(word: &[u8]) -> bool
    ensures { result ≡ list_any (bytes_eq word.now) reserved }
{
    word == b"machine".as_slice()
        || word == b"include".as_slice()
        || word == b"alphtype".as_slice()
        || word == b"access".as_slice()
        || word == b"variable".as_slice()
        || word == b"write".as_slice()
        || word == b"action".as_slice()
        || word == b"when".as_slice()
        || word == b"inwhen".as_slice()
        || word == b"outwhen".as_slice()
        || word == b"import".as_slice()
        || word == b"export".as_slice()
        || word == b"exports".as_slice()
        || word == b"getkey".as_slice()
        || word == b"prepush".as_slice()
        || word == b"postpop".as_slice()
}

/// The kind of a word.
pub fn word_kind(word: &[u8]) -> TokenKind
    ensures { result ≡ word_kind word.now }
{
    match keyword(word) {
        Some(kind) => kind,
        None => {
            if is_reserved(word) {
                TokenKind::Reserved
            } else {
                TokenKind::Name
            }
        }
    }
}

/// Whether a `variable` has its text behind this name.
pub fn is_variable(name: &[u8]) -> bool
    ensures { result ≡ is_variable name.now }
{
    name == b"p".as_slice()
        || name == b"pe".as_slice()
        || name == b"eof".as_slice()
        || name == b"cs".as_slice()
        || name == b"top".as_slice()
        || name == b"stack".as_slice()
        || name == b"act".as_slice()
        || name == b"ts".as_slice()
        || name == b"te".as_slice()
}

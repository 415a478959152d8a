// The words of code.
ghost use Rattle.std.specs.Prelude.{◌≡◌};
ghost use Rattle.rl_code.specs.Forms as forms;

use rl_code::CodeWord;
use rl_run::StatementKind;

/// The word of code that a word is.
pub fn code_word(word: &[u8]) -> Option<CodeWord>
    ensures { result ≡ forms.code_word word.now }
{
    if word == b"fhold".as_slice() {
        Some(CodeWord::Control(StatementKind::Hold))
    } else if word == b"fexec".as_slice() {
        Some(CodeWord::Control(StatementKind::Exec))
    } else if word == b"fgoto".as_slice() {
        Some(CodeWord::Control(StatementKind::Goto))
    } else if word == b"fcall".as_slice() {
        Some(CodeWord::Control(StatementKind::Call))
    } else if word == b"fret".as_slice() {
        Some(CodeWord::Control(StatementKind::Ret))
    } else if word == b"fnext".as_slice() {
        Some(CodeWord::Control(StatementKind::Next))
    } else if word == b"fbreak".as_slice() {
        Some(CodeWord::Control(StatementKind::Break))
    } else if word == b"fentry".as_slice() {
        Some(CodeWord::Entry)
    } else if word == b"fpc".as_slice() {
        Some(CodeWord::Position)
    } else if word == b"fc".as_slice() {
        Some(CodeWord::Character)
    } else if word == b"fcurs".as_slice() {
        Some(CodeWord::LeftOut)
    } else if word == b"ftargs".as_slice() {
        Some(CodeWord::LeftOut)
    } else {
        None
    }
}

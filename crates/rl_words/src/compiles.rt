// What the words of `ragel` say.
ghost use Rattle.std.specs.Prelude.{◌≡◌, Some, codes, option_map, IfOk, IfErr};
ghost use Rattle.clap.specs.Words.{found_of, first_of, rows_of};
ghost use Rattle.rl_words.specs.Compiles.{is_text, is_on, is_table_driven, compile_given, compile_of};
ghost use Rattle.rl_words.specs.Told.{text_in, texts, compile_told, RefusesWords};

use crate::command::compiler;
use crate::fault::{WordsFault, matched};
use crate::given::value_of;
use clap::ArgMatches;
use std::alloc::Global;

/// What `ragel` is to do (this profile).
#[derive(Clone, Copy, Debug)]
pub struct CompileWords<'a> {
    /// The name of the source.
    pub spec: &'a str,
    /// Where the printed file goes; without it, to the source's name with a final `.rl` replaced by `.c`, or with `.c` added.
    pub out: Option<&'a str>,
    /// Whether the printed lines name those of the source by `#line`: unless `-L` is given.
    pub marked: bool,
    /// Whether a certificate is printed.
    pub certify: bool,
}

// Whether a value that was given is this text.
fn is_text(wanted: &str, text: Option<&str>) -> bool
    ensures { result ≡ is_text wanted.now (text_in text.entry) }
{
    match text {
        Some(text) => wanted.as_bytes() == text.as_bytes(),
        None => false,
    }
}

// Whether a flag is given.
fn is_on(matches: &ArgMatches<'_>, id: &str) -> bool
    ensures { result ≡ is_on id.now (rows_of (found_of matches.now)) }
{
    is_text("true", value_of(matches, id))
}

// Whether `-T` is not given, or has the value 0.
fn is_table_driven(text: Option<&str>) -> bool
    ensures { result ≡ is_table_driven (text_in text.entry) }
{
    match text {
        None => true,
        Some(text) => b"0".as_slice() == text.as_bytes(),
    }
}

// What is said by all that was given.
fn compile_given<'a>(matches: &ArgMatches<'a>) -> Option<CompileWords<'a>>
    ensures { option_map compile_told result ≡ compile_given (rows_of (found_of matches.now)) (first_of (codes "spec") (rows_of (found_of matches.now))) }
{
    let spec = value_of(matches, "spec")?;
    if !is_table_driven(value_of(matches, "T")) {
        return None;
    }
    Some(CompileWords {
        spec,
        out: value_of(matches, "o"),
        marked: !is_on(matches, "L"),
        certify: is_on(matches, "certify"),
    })
}

/// What the words behind the program's name say to `ragel`: `[-C] [-L] [-T 0] [-m] [-l] [-e] [-o OUT] [--certify] SPEC`. The
/// options may stand before, between and behind the other words, each at most once. `-C`, `-T 0`, `-m`, `-l` and `-e` change
/// nothing (this profile).
///
/// The error is `Usage` exactly where the words have not this form, and `Memory` for want of memory.
#[tactic(auto, using(crate::proofs::MatchLaws::compile_refused))]
pub fn compile_words<'a>(
    alloc: Global,
    words: &'a [&'a str],
) -> Result<CompileWords<'a>, WordsFault>
    ensures said { IfOk result (λ c. compile_of (texts words.now) ≡ Some (compile_told c)) }
    ensures refused { IfErr result (RefusesWords (compile_of (texts words.now))) }
{
    let Ok(command) = compiler(alloc) else {
        return Err(WordsFault::Memory);
    };
    match matched(command, words) {
        Ok(matches) => match compile_given(&matches) {
            Some(compile) => Ok(compile),
            None => Err(WordsFault::Usage),
        },
        Err(fault) => Err(fault),
    }
}

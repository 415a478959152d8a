// The parser.
ghost use Rattle.std.specs.Prelude.{◌≡◌, length, true, IfOk, IfErr, MatchResult};
ghost use Rattle.rl_grammar.specs.Grammar.{Derives};
ghost use Rattle.rl_grammar.specs.Refusals.{ends_once, NumbersFit, NoneBefore, Tells};
ghost use Rattle.rl_grammar.specs.declared.read_fault.ReadFault.TheVariants as fault;
ghost use Rattle.rl_grammar.specs.declared.syntax.Syntax.{Syntax};
ghost use Rattle.rl_parse.specs.Parse.{IsFirst};

use crate::refusals::{first_refusal, syntax_fault};
use crate::sentence::{SentenceError, read_sentence};
use rl_grammar::syntax::Syntax;
use rl_grammar::{ReadFault, Token};
use std::alloc::Global;

/// What is refused where the token at this index is the first that decides something beside the grammar.
fn refused(alloc: Global, tokens: &[Token], at: usize, refusal: ReadFault) -> ReadFault
    requires { IsFirst refusal tokens.now at }
    ensures { Tells result tokens.now }
{
    match read_sentence(alloc, &tokens[..at + 1]) {
        Ok(_) => refusal,
        Err(SentenceError::Memory) => ReadFault::Memory,
        Err(SentenceError::Fault(fault)) => syntax_fault(tokens, fault),
        Err(SentenceError::Unfinished) => refusal,
    }
}

/// The tree that the tokens of a block spell (this profile's grammar).
///
/// The last token, and no other, is the end, and each integer fits 64 bits with a sign. The answer is an error at the
/// first token that decides one: F3 where the tokens before it begin a sentence and with it do not; L3 at a `(` behind
/// 128 open ones; F10 at the `{` of a count whose first number is above its second, decided by its `}`; F11 at the
/// `|*` of a scanner that is not the whole right side of a `:=`, decided by it or by the token behind its `*|`. Where
/// one token decides several, F3 comes first, then what stands first in the text. `Memory` is want of memory.
pub fn parse(alloc: Global, tokens: &[Token]) -> Result<Syntax, ReadFault>
    requires ended { ends_once tokens.now ≡ true }
    requires numbers { NumbersFit tokens.now }
    ensures derived { IfOk result (λ s. Derives s tokens.now) }
    ensures none_refused { IfOk result (λ s. NoneBefore tokens.now (length tokens.now)) }
    // A sentence has one tree, and it is read.
    ensures only { (s : Syntax) → Derives s tokens.now → NoneBefore tokens.now (length tokens.now) → MatchResult result (λ found. found ≡ s) (λ e. e ≡ fault.Memory) }
    ensures refused { IfErr result (λ e. Tells e tokens.now) }
{
    match first_refusal(tokens) {
        None => match read_sentence(alloc, tokens) {
            Ok(syntax) => Ok(syntax),
            Err(SentenceError::Memory) => Err(ReadFault::Memory),
            Err(SentenceError::Fault(at)) => Err(syntax_fault(tokens, at)),
            Err(SentenceError::Unfinished) => unreachable!(),
        },
        Some((at, refusal)) => Err(refused(alloc, tokens, at, refusal)),
    }
}

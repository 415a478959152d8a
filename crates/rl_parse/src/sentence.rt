// The tree of a sentence, or the first fault of the grammar.
ghost use Rattle.std.specs.Prelude.{◌≡◌, IfOk, IfErr, MatchResult};
ghost use Rattle.rl_grammar.specs.Grammar.{Derives};
ghost use Rattle.rl_grammar.specs.declared.syntax.Syntax.{Syntax};
ghost use Rattle.rl_parse.specs.Parse.{Explains};

use crate::statements::block;
use crate::stop::Stop;
use rl_grammar::Token;
use rl_grammar::syntax::Syntax;
use std::alloc::Global;

/// Why the tokens are no sentence.
#[derive(Clone, Copy)]
pub enum SentenceError {
    Memory,
    /// The index of the first token with which no sentence begins.
    Fault(usize),
    /// A sentence begins with all the tokens, and they are none.
    Unfinished,
}

/// The tree that the tokens spell.
pub fn read_sentence(alloc: Global, tokens: &[Token]) -> Result<Syntax, SentenceError>
    ensures derived { IfOk result (λ s. Derives s tokens.now) }
    // What derives from a tree is read as that tree, so no other tree derives it.
    ensures only { (s : Syntax) → Derives s tokens.now → MatchResult result (λ found. found ≡ s) (λ e. e ≡ SentenceError.Memory) }
    ensures refused { IfErr result (λ e. Explains e tokens.now) }
{
    match block(alloc, tokens.len(), tokens) {
        Ok((syntax, rest)) => {
            if rest.is_empty() {
                Ok(syntax)
            } else {
                Err(SentenceError::Fault(tokens.len() - rest.len()))
            }
        }
        Err(Stop::Memory) => Err(SentenceError::Memory),
        Err(Stop::At(left)) => {
            if left == 0 {
                Err(SentenceError::Unfinished)
            } else {
                Err(SentenceError::Fault(tokens.len() - left))
            }
        }
    }
}

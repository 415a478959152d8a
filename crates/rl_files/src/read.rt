// The reading of one file.
ghost use Rattle.std.specs.Prelude.{◌≡◌, ◌<◌, ◌≤◌, ◌^◌, ◌++◌, ◌∷◌, [], length, IfOk, IfErr, MatchResult};
ghost use Rattle.rl_types.specs.Limits.{most_source_bytes};
ghost use Rattle.rl_grammar.specs.Refusals.{Tells};
ghost use Rattle.rl_grammar.specs.declared.read_fault.ReadFault.TheVariants as reason;
ghost use Rattle.rl_lexical.specs.Answers.{Gives};
ghost use Rattle.rl_files.specs.Files.{tokens_of, file_tokens, IsTree, AreTrees, ReadsAs, Explains, too_long};
ghost use Rattle.rl_files.specs.Blocks.{AreTokens, AllTokens, Puts, TellsFirst};

use rl_grammar::syntax::Syntax;
use rl_grammar::{ReadFault, Token};
use rl_lex::{Part, split, tokens};
use rl_parse::parse;
use rl_types::{Limit, LimitKind, List, MOST_SOURCE_BYTES, Place};
use std::alloc::Global;

fn push<T: Drop>(list: &mut List<T>, item: T) -> Result<(), ReadFault>
    ensures { MatchResult result (λ _. list.new ≡ list.old ++ item ∷ []) (λ e. e ≡ reason.Memory) }
{
    list.push(item).map_err(|_| ReadFault::Memory)
}

fn too_long(number: u64) -> ReadFault
    ensures { result ≡ too_long number }
{
    ReadFault::Limit(Limit {
        kind: LimitKind::L1,
        place: Place {
            file: number,
            line: 1,
            col: 1,
        },
    })
}

/// Puts the tokens of a part to those of the parts before it.
fn put(alloc: Global, found: &mut List<List<Token>>, part: &Part) -> Result<(), ReadFault>
    ensures { Puts part.now found.old result found.new }
{
    match part {
        Part::Host(_) => Ok(()),
        Part::Block(block) => {
            let tokens = tokens(alloc, block)?;
            push(found, tokens)
        }
    }
}

/// The tokens of each block among parts.
fn tokens_of(alloc: Global, parts: &[Part]) -> Result<List<List<Token>>, ReadFault>
    ensures { Gives (tokens_of parts.now) result }
{
    let mut found = List::new(alloc);
    for part in parts {
        put(alloc, &mut found, part)?;
    }
    Ok(found)
}

/// The tokens of each block of a file.
fn file_tokens(alloc: Global, text: &[u8], number: u64) -> Result<List<List<Token>>, ReadFault>
    requires { length text.now ≤ most_source_bytes }
    ensures { Gives (file_tokens number text.now) result }
{
    let parts = split(alloc, text, number)?;
    tokens_of(alloc, parts.as_slice())
}

/// The tree of a block.
fn tree(alloc: Global, block: &List<Token>) -> Result<Syntax, ReadFault>
    requires { AreTokens block.now }
    ensures read { IfOk result (λ tree. IsTree block.now tree) }
    ensures refused { IfErr result (λ e. Tells e block.now) }
{
    parse(alloc, block.as_slice())
}

/// The trees of blocks.
fn trees(alloc: Global, blocks: &[List<Token>]) -> Result<List<Syntax>, ReadFault>
    requires { AllTokens blocks.now }
    ensures read { IfOk result (λ trees. AreTrees blocks.now trees) }
    ensures refused { IfErr result (λ e. TellsFirst e blocks.now) }
{
    let mut found = List::new(alloc);
    for block in blocks {
        let tree = tree(alloc, block)?;
        push(&mut found, tree)?;
    }
    Ok(found)
}

/// The trees of a text that is short enough.
fn file_trees(alloc: Global, text: &[u8], number: u64) -> Result<List<Syntax>, ReadFault>
    requires { length text.now ≤ most_source_bytes }
    ensures read { IfOk result (λ trees. ReadsAs number text.now trees) }
    ensures refused { IfErr result (λ e. Explains number text.now e) }
{
    let blocks = file_tokens(alloc, text, number)?;
    trees(alloc, blocks.as_slice())
}

/// The trees of the blocks of a file, one for each (the guide's chapter 2), where this is its number in each place.
///
/// The error is the first refusal, each step over the whole file before the next. L1 comes at 1:1 where the file has more
/// than 4,194,304 bytes (this profile); then F2 and F19, as `split` tells them; F1 and F7, as `tokens` tells them, block by
/// block; then F3, F10, F11 and L3, as `parse` tells them, block by block. `Memory` is want of memory, which may come at
/// every text.
pub fn read_file(alloc: Global, text: &[u8], number: u64) -> Result<List<Syntax>, ReadFault>
    ensures read { IfOk result (λ trees. ReadsAs number text.now trees) }
    ensures refused { IfErr result (λ e. Explains number text.now e) }
{
    if text.len() > MOST_SOURCE_BYTES {
        return Err(too_long(number));
    }
    file_trees(alloc, text, number)
}

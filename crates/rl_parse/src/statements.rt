// Statements and blocks.
ghost use Rattle.std.specs.Prelude.{◌≡◌, length};
ghost use Rattle.rl_parse.specs.Reading.{Gives};
ghost use Rattle.rl_parse.specs.Rules as rules;

use crate::expressions::union;
use crate::signs::{begins_statement, begins_with, definition_sign, is_name, kind_of, place, word};
use crate::stop::Stop;
use crate::words::{alphabet_word, unsigned, variable_name, write_kind, write_option};
use rl_grammar::syntax::{
    Access, Action, Alphtype, Definition, Include, Machine, Statement, Syntax, Variable, Word,
    Write, WriteOption,
};
use rl_grammar::{Token, TokenKind};
use rl_types::List;
use std::alloc::Global;

#[tactic(auto, unfolding(crate::specs::Rules::machine))]
fn machine(alloc: Global, tokens: &[Token]) -> Result<(Machine, &[Token]), Stop>
    ensures { Gives (λ x. (x.0, x.1.now)) result (rules.machine tokens.now) }
{
    let (start, rest) = place(tokens, TokenKind::Machine)?;
    let (name, rest) = word(alloc, rest, TokenKind::Name)?;
    let (semicolon, rest) = place(rest, TokenKind::Semicolon)?;
    Ok((
        Machine {
            start,
            name,
            semicolon,
        },
        rest,
    ))
}

#[tactic(auto, unfolding(crate::specs::Rules::optional_name))]
fn optional_name(alloc: Global, tokens: &[Token]) -> Result<(Option<Word>, &[Token]), Stop>
    ensures { Gives (λ x. (x.0, x.1.now)) result (rules.optional_name tokens.now) }
{
    if begins_with(tokens, TokenKind::Name) {
        let (name, rest) = word(alloc, tokens, TokenKind::Name)?;
        Ok((Some(name), rest))
    } else {
        Ok((None, tokens))
    }
}

#[tactic(auto, unfolding(crate::specs::Rules::inclusion))]
fn inclusion(alloc: Global, tokens: &[Token]) -> Result<(Include, &[Token]), Stop>
    ensures { Gives (λ x. (x.0, x.1.now)) result (rules.inclusion tokens.now) }
{
    let (start, rest) = place(tokens, TokenKind::Include)?;
    let (machine, rest) = optional_name(alloc, rest)?;
    let (file, rest) = word(alloc, rest, TokenKind::Literal)?;
    let (semicolon, rest) = place(rest, TokenKind::Semicolon)?;
    Ok((
        Include {
            start,
            machine,
            file,
            semicolon,
        },
        rest,
    ))
}

#[tactic(auto, unfolding(crate::specs::Rules::alphtype))]
fn alphtype(tokens: &[Token]) -> Result<(Alphtype, &[Token]), Stop>
    ensures { Gives (λ x. (x.0, x.1.now)) result (rules.alphtype tokens.now) }
{
    let (start, rest) = place(tokens, TokenKind::Alphtype)?;
    let (unsigned, rest) = unsigned(rest)?;
    let (word, rest) = alphabet_word(rest)?;
    let (semicolon, rest) = place(rest, TokenKind::Semicolon)?;
    Ok((
        Alphtype {
            start,
            unsigned,
            word,
            semicolon,
        },
        rest,
    ))
}

#[tactic(auto, unfolding(crate::specs::Rules::access))]
fn access(alloc: Global, tokens: &[Token]) -> Result<(Access, &[Token]), Stop>
    ensures { Gives (λ x. (x.0, x.1.now)) result (rules.access tokens.now) }
{
    let (start, rest) = place(tokens, TokenKind::Access)?;
    let (text, rest) = word(alloc, rest, TokenKind::Text)?;
    let (semicolon, rest) = place(rest, TokenKind::Semicolon)?;
    Ok((
        Access {
            start,
            text,
            semicolon,
        },
        rest,
    ))
}

#[tactic(auto, unfolding(crate::specs::Rules::variable))]
fn variable(alloc: Global, tokens: &[Token]) -> Result<(Variable, &[Token]), Stop>
    ensures { Gives (λ x. (x.0, x.1.now)) result (rules.variable tokens.now) }
{
    let (start, rest) = place(tokens, TokenKind::Variable)?;
    let (name, rest) = variable_name(alloc, rest)?;
    let (text, rest) = word(alloc, rest, TokenKind::Text)?;
    let (semicolon, rest) = place(rest, TokenKind::Semicolon)?;
    Ok((
        Variable {
            start,
            name,
            text,
            semicolon,
        },
        rest,
    ))
}

fn write_options(alloc: Global, tokens: &[Token]) -> Result<(List<WriteOption>, &[Token]), Stop>
    ensures { Gives (λ x. (x.0, x.1.now)) result (rules.write_options tokens.now) }
{
    let mut found = List::new(alloc);
    let mut rest = tokens;
    for _turn in 0..tokens.len() {
        if !is_name(kind_of(rest)) {
            break;
        }
        let (one, after) = write_option(rest)?;
        found.push(one)?;
        rest = after;
    }
    Ok((found, rest))
}

#[tactic(auto, unfolding(crate::specs::Rules::write))]
fn write(alloc: Global, tokens: &[Token]) -> Result<(Write, &[Token]), Stop>
    ensures { Gives (λ x. (x.0, x.1.now)) result (rules.write tokens.now) }
{
    let (start, rest) = place(tokens, TokenKind::Write)?;
    let (what, rest) = write_kind(rest)?;
    let (options, rest) = write_options(alloc, rest)?;
    let (semicolon, rest) = place(rest, TokenKind::Semicolon)?;
    Ok((
        Write {
            start,
            what,
            options,
            semicolon,
        },
        rest,
    ))
}

#[tactic(auto, unfolding(crate::specs::Rules::action_statement))]
fn action(alloc: Global, tokens: &[Token]) -> Result<(Action, &[Token]), Stop>
    ensures { Gives (λ x. (x.0, x.1.now)) result (rules.action_statement tokens.now) }
{
    let (start, rest) = place(tokens, TokenKind::Action)?;
    let (name, rest) = word(alloc, rest, TokenKind::Name)?;
    let (code, rest) = word(alloc, rest, TokenKind::Code)?;
    Ok((Action { start, name, code }, rest))
}

#[tactic(auto, unfolding(crate::specs::Rules::defined))]
fn definition(alloc: Global, depth: usize, tokens: &[Token]) -> Result<(Definition, &[Token]), Stop>
    ensures { Gives (λ x. (x.0, x.1.now)) result (rules.defined depth tokens.now) }
{
    let (name, rest) = word(alloc, tokens, TokenKind::Name)?;
    let (sign, rest) = definition_sign(rest)?;
    let (value, rest) = union(alloc, depth, rest)?;
    let (semicolon, rest) = place(rest, TokenKind::Semicolon)?;
    Ok((
        Definition {
            name,
            sign,
            value,
            semicolon,
        },
        rest,
    ))
}

#[tactic(auto, unfolding(crate::specs::Rules::one_statement, rl_grammar::specs::Lexeme::same_kind))]
fn statement(alloc: Global, depth: usize, tokens: &[Token]) -> Result<(Statement, &[Token]), Stop>
    ensures { Gives (λ x. (x.0, x.1.now)) result (rules.one_statement depth tokens.now) }
{
    match kind_of(tokens) {
        TokenKind::Machine => {
            let (machine, rest) = machine(alloc, tokens)?;
            Ok((Statement::Machine(machine), rest))
        }
        TokenKind::Include => {
            let (include, rest) = inclusion(alloc, tokens)?;
            Ok((Statement::Include(include), rest))
        }
        TokenKind::Alphtype => {
            let (alphtype, rest) = alphtype(tokens)?;
            Ok((Statement::Alphtype(alphtype), rest))
        }
        TokenKind::Access => {
            let (access, rest) = access(alloc, tokens)?;
            Ok((Statement::Access(access), rest))
        }
        TokenKind::Variable => {
            let (variable, rest) = variable(alloc, tokens)?;
            Ok((Statement::Variable(variable), rest))
        }
        TokenKind::Write => {
            let (write, rest) = write(alloc, tokens)?;
            Ok((Statement::Write(write), rest))
        }
        TokenKind::Action => {
            let (action, rest) = action(alloc, tokens)?;
            Ok((Statement::Action(action), rest))
        }
        _ => {
            let (definition, rest) = definition(alloc, depth, tokens)?;
            Ok((Statement::Definition(definition), rest))
        }
    }
}

fn statements(
    alloc: Global,
    depth: usize,
    tokens: &[Token],
) -> Result<(List<Statement>, &[Token]), Stop>
    ensures { Gives (λ x. (x.0, x.1.now)) result (rules.statements depth tokens.now) }
{
    let mut found = List::new(alloc);
    let mut rest = tokens;
    for _turn in 0..tokens.len() {
        if !begins_statement(kind_of(rest)) {
            break;
        }
        let (one, after) = statement(alloc, depth, rest)?;
        found.push(one)?;
        rest = after;
    }
    Ok((found, rest))
}

/// The statements of a block and its end, where so many expressions may stand in one another.
#[tactic(auto, unfolding(crate::specs::Rules::block))]
pub fn block(alloc: Global, depth: usize, tokens: &[Token]) -> Result<(Syntax, &[Token]), Stop>
    ensures { Gives (λ x. (x.0, x.1.now)) result (rules.block depth tokens.now) }
{
    let (statements, rest) = statements(alloc, depth, tokens)?;
    let (end, rest) = place(rest, TokenKind::End)?;
    Ok((Syntax { statements, end }, rest))
}

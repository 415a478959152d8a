// The command lines of the programs, as the parser of command lines is told it.
ghost use Rattle.std.specs.Prelude.{◌≡◌, false, IfOk};
ghost use Rattle.clap.specs.Words.{app_of, rule_of, with_rule};
ghost use Rattle.rl_words.specs.Commands.{option, letter_option, letter_flag, flag, word, nameless, with_rules, settings, forms, files, letters, outputs, replayer, compiler};

use clap::{Arg, ArgAction, Command};
use std::alloc::{AllocError, Global};

// `--NAME VALUE`.
fn option<'a>(alloc: Global, name: &'a str) -> Arg<'a>
    ensures rule { rule_of result ≡ option name.entry.now }
    ensures local { result.global ≡ false }
{
    Arg::new(alloc, name).long(name).action(ArgAction::Set)
}

// A word that is no option.
fn word<'a>(alloc: Global, name: &'a str) -> Arg<'a>
    ensures rule { rule_of result ≡ word name.entry.now }
    ensures local { result.global ≡ false }
{
    Arg::new(alloc, name).action(ArgAction::Set)
}

// A command of this name, whose words are all that it is given.
fn nameless<'a>(alloc: Global, name: &'a str) -> Command<'a>
    ensures { app_of result ≡ nameless name.entry.now }
{
    Command::new(alloc, name).no_binary_name(true)
}

// The command with an option more.
fn with_option<'a>(
    alloc: Global,
    command: Command<'a>,
    name: &'a str,
) -> Result<Command<'a>, AllocError>
    ensures { IfOk result (λ c. app_of c ≡ with_rule (app_of command.entry) (option name.entry.now)) }
{
    let option = option(alloc, name);
    let command = command.arg(option)?;
    Ok(command)
}

// The command with a word more.
fn with_word<'a>(
    alloc: Global,
    command: Command<'a>,
    name: &'a str,
) -> Result<Command<'a>, AllocError>
    ensures { IfOk result (λ c. app_of c ≡ with_rule (app_of command.entry) (word name.entry.now)) }
{
    let word = word(alloc, name);
    let command = command.arg(word)?;
    Ok(command)
}

// The command with the machine's name and the settings.
fn with_settings<'a>(alloc: Global, command: Command<'a>) -> Result<Command<'a>, AllocError>
    ensures { IfOk result (λ c. app_of c ≡ with_rules (app_of command.entry) settings) }
{
    let command = with_option(alloc, command, "machine")?;
    let command = with_option(alloc, command, "stack")?;
    let command = with_option(alloc, command, "look")?;
    let command = with_option(alloc, command, "token")?;
    Ok(command)
}

// The command with the options that tell the forms apart.
fn with_forms<'a>(alloc: Global, command: Command<'a>) -> Result<Command<'a>, AllocError>
    ensures { IfOk result (λ c. app_of c ≡ with_rules (app_of command.entry) forms) }
{
    let command = with_option(alloc, command, "input")?;
    let command = with_option(alloc, command, "make")?;
    let command = with_option(alloc, command, "upgrade")?;
    Ok(command)
}

// The command with the names of files.
fn with_files<'a>(alloc: Global, command: Command<'a>) -> Result<Command<'a>, AllocError>
    ensures { IfOk result (λ c. app_of c ≡ with_rules (app_of command.entry) files) }
{
    let command = with_word(alloc, command, "spec")?;
    let command = with_word(alloc, command, "script")?;
    Ok(command)
}

// The command line of `ragel-run`.
pub(crate) fn replayer<'a>(alloc: Global) -> Result<Command<'a>, AllocError>
    ensures { IfOk result (λ c. app_of c ≡ replayer) }
{
    let command = nameless(alloc, "ragel-run");
    let command = with_settings(alloc, command)?;
    let command = with_forms(alloc, command)?;
    let command = with_files(alloc, command)?;
    Ok(command)
}

// `-X VALUE`.
fn letter_option<'a>(alloc: Global, id: &'a str, letter: char) -> Arg<'a>
    ensures rule { rule_of result ≡ letter_option id.entry.now letter }
    ensures local { result.global ≡ false }
{
    Arg::new(alloc, id).short(letter).action(ArgAction::Set)
}

// `-X`.
fn letter_flag<'a>(alloc: Global, id: &'a str, letter: char) -> Arg<'a>
    ensures rule { rule_of result ≡ letter_flag id.entry.now letter }
    ensures local { result.global ≡ false }
{
    Arg::new(alloc, id).short(letter).action(ArgAction::SetTrue)
}

// `--NAME`.
fn flag<'a>(alloc: Global, name: &'a str) -> Arg<'a>
    ensures rule { rule_of result ≡ flag name.entry.now }
    ensures local { result.global ≡ false }
{
    Arg::new(alloc, name).long(name).action(ArgAction::SetTrue)
}

// The command with `-X` more.
fn with_letter<'a>(
    alloc: Global,
    command: Command<'a>,
    id: &'a str,
    letter: char,
) -> Result<Command<'a>, AllocError>
    ensures { IfOk result (λ c. app_of c ≡ with_rule (app_of command.entry) (letter_flag id.entry.now letter)) }
{
    let flag = letter_flag(alloc, id, letter);
    let command = command.arg(flag)?;
    Ok(command)
}

// The command with `-X VALUE` more.
fn with_letter_option<'a>(
    alloc: Global,
    command: Command<'a>,
    id: &'a str,
    letter: char,
) -> Result<Command<'a>, AllocError>
    ensures { IfOk result (λ c. app_of c ≡ with_rule (app_of command.entry) (letter_option id.entry.now letter)) }
{
    let option = letter_option(alloc, id, letter);
    let command = command.arg(option)?;
    Ok(command)
}

// The command with `--NAME` more.
fn with_flag<'a>(
    alloc: Global,
    command: Command<'a>,
    name: &'a str,
) -> Result<Command<'a>, AllocError>
    ensures { IfOk result (λ c. app_of c ≡ with_rule (app_of command.entry) (flag name.entry.now)) }
{
    let flag = flag(alloc, name);
    let command = command.arg(flag)?;
    Ok(command)
}

// The command with the flags that are letters.
fn with_letters<'a>(alloc: Global, command: Command<'a>) -> Result<Command<'a>, AllocError>
    ensures { IfOk result (λ c. app_of c ≡ with_rules (app_of command.entry) letters) }
{
    let command = with_letter(alloc, command, "C", 'C')?;
    let command = with_letter(alloc, command, "m", 'm')?;
    let command = with_letter(alloc, command, "l", 'l')?;
    let command = with_letter(alloc, command, "e", 'e')?;
    let command = with_letter(alloc, command, "L", 'L')?;
    Ok(command)
}

// The command with what says where output goes, and the name of the source.
fn with_outputs<'a>(alloc: Global, command: Command<'a>) -> Result<Command<'a>, AllocError>
    ensures { IfOk result (λ c. app_of c ≡ with_rules (app_of command.entry) outputs) }
{
    let command = with_letter_option(alloc, command, "T", 'T')?;
    let command = with_letter_option(alloc, command, "o", 'o')?;
    let command = with_flag(alloc, command, "certify")?;
    let command = with_word(alloc, command, "spec")?;
    Ok(command)
}

// The command line of `ragel`.
pub(crate) fn compiler<'a>(alloc: Global) -> Result<Command<'a>, AllocError>
    ensures { IfOk result (λ c. app_of c ≡ compiler) }
{
    let command = nameless(alloc, "ragel");
    let command = with_letters(alloc, command)?;
    let command = with_outputs(alloc, command)?;
    Ok(command)
}

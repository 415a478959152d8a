// What the statements of one machine say beside its expressions and actions, and which machines there are.
ghost use Rattle.std.specs.Prelude.{◌≡◌, MatchResult};
ghost use Rattle.rl_grammar.specs.declared.read_fault.ReadFault.TheVariants as reason;
ghost use Rattle.rl_names.specs.Frames as frames;
ghost use Rattle.rl_names.specs.TableForms.{pointed};
ghost use Rattle.rl_grammar.specs.Steps.{is_included};

use crate::memory::{name_of, push};
use rl_grammar::syntax::{AlphabetWord, Statement, WriteKind as Asked};
use rl_grammar::{ReadFault, Step};
use rl_model::{Frame, Write, WriteKind};
use rl_types::{Alphabet, Code, List, Name, Place};
use std::alloc::Global;

/// Whether a step stands in an included file.
pub fn is_included(step: &Step) -> bool
    ensures { result ≡ is_included step.now }
{
    step.file != 0
}

/// Whether a step belongs to a machine.
pub fn is_of(machine: &[u8], step: &Step) -> bool
    ensures { result ≡ frames.is_of machine.now step.now }
{
    machine == step.machine.bytes()
}

/// The alphabet of a word, behind `unsigned` where that stands.
fn alphabet_said(unsigned: Option<Place>, word: AlphabetWord) -> Alphabet
    ensures { result ≡ frames.alphabet_said unsigned word }
{
    match (unsigned, word) {
        (None, AlphabetWord::Char(_)) => Alphabet::Char,
        (None, AlphabetWord::Short(_)) => Alphabet::Short,
        (None, AlphabetWord::Int(_)) => Alphabet::Int,
        (Some(_), AlphabetWord::Char(_)) => Alphabet::UnsignedChar,
        (Some(_), AlphabetWord::Short(_)) => Alphabet::UnsignedShort,
        (Some(_), AlphabetWord::Int(_)) => Alphabet::UnsignedInt,
    }
}

/// The alphabet behind a statement of its machine.
pub fn alphabet_by(alphabet: Alphabet, statement: &Statement) -> Alphabet
    ensures { result ≡ frames.alphabet_by alphabet statement.now }
{
    match statement {
        Statement::Alphtype(one) => alphabet_said(one.unsigned, one.word),
        Statement::Machine(_)
        | Statement::Include(_)
        | Statement::Access(_)
        | Statement::Variable(_)
        | Statement::Write(_)
        | Statement::Action(_)
        | Statement::Definition(_) => alphabet,
    }
}

fn alphabet_behind(machine: &[u8], alphabet: Alphabet, step: &Step) -> Alphabet
    ensures { result ≡ frames.alphabet_behind machine.now alphabet step.now }
{
    if is_of(machine, step) {
        alphabet_by(alphabet, &step.statement)
    } else {
        alphabet
    }
}

/// The alphabet of a machine: that of its last `alphtype`, or else `char`.
pub fn alphabet_of(machine: &[u8], own: &[&Step]) -> Alphabet
    ensures { result ≡ frames.alphabet_of machine.now (pointed own.now) }
{
    let mut alphabet = Alphabet::Char;
    for step in own {
        alphabet = alphabet_behind(machine, alphabet, *step);
    }
    alphabet
}

fn code_of(alloc: Global, bytes: &[u8]) -> Result<Code, ReadFault>
    ensures { MatchResult result (λ code. code ≡ bytes.now) (λ e. e ≡ reason.Memory) }
{
    match Vec::from_slice(alloc, bytes) {
        Ok(bytes) => Ok(Code::new(bytes)),
        Err(_) => Err(ReadFault::Memory),
    }
}

/// The place of a variable, or the number of them all.
fn place_of(variables: &[(Name, Code)], name: &[u8]) -> usize
    ensures { result ≡ frames.variable_place name.now variables.now }
{
    for at in 0..variables.len() {
        if name == variables[at].0.bytes() {
            return at;
        }
    }
    variables.len()
}

fn set_variable(
    alloc: Global,
    variables: &mut List<(Name, Code)>,
    name: &[u8],
    text: &[u8],
) -> Result<(), ReadFault>
    ensures { MatchResult result (λ _. variables.new ≡ frames.with_variable name.now text.now variables.old) (λ e. e ≡ reason.Memory) }
{
    let pair = (name_of(alloc, name)?, code_of(alloc, text)?);
    let at = place_of(variables.as_slice(), name);
    if at < variables.len() {
        variables.set(at, pair);
        Ok(())
    } else {
        push(variables, pair)
    }
}

fn frame_by(alloc: Global, frame: &mut Frame, statement: &Statement) -> Result<(), ReadFault>
    ensures { MatchResult result (λ _. frame.new ≡ frames.frame_by frame.old statement.now) (λ e. e ≡ reason.Memory) }
{
    match statement {
        Statement::Access(one) => {
            frame.access = code_of(alloc, one.text.text.as_slice())?;
            Ok(())
        }
        Statement::Variable(one) => set_variable(
            alloc,
            &mut frame.variables,
            one.name.text.as_slice(),
            one.text.text.as_slice(),
        ),
        Statement::Machine(_)
        | Statement::Include(_)
        | Statement::Alphtype(_)
        | Statement::Write(_)
        | Statement::Action(_)
        | Statement::Definition(_) => Ok(()),
    }
}

fn frame_behind(
    alloc: Global,
    machine: &[u8],
    frame: &mut Frame,
    step: &Step,
) -> Result<(), ReadFault>
    ensures { MatchResult result (λ _. frame.new ≡ frames.frame_behind machine.now frame.old step.now) (λ e. e ≡ reason.Memory) }
{
    if is_of(machine, step) {
        frame_by(alloc, frame, &step.statement)
    } else {
        Ok(())
    }
}

/// What the printed code of a machine is given.
pub fn frame_of(alloc: Global, machine: &[u8], own: &[&Step]) -> Result<Frame, ReadFault>
    ensures { MatchResult result (λ frame. frame ≡ frames.frame_of machine.now (pointed own.now)) (λ e. e ≡ reason.Memory) }
{
    let mut frame = Frame {
        access: Code::new(Vec::new(alloc)),
        variables: List::new(alloc),
        marked: true,
    };
    for step in own {
        frame_behind(alloc, machine, &mut frame, *step)?;
    }
    Ok(frame)
}

fn kind_written(kind: Asked) -> WriteKind
    ensures { result ≡ frames.kind_written kind }
{
    match kind {
        Asked::Data(_) => WriteKind::Data,
        Asked::Init(_) => WriteKind::Init,
        Asked::Exec(_) => WriteKind::Exec,
    }
}

fn write_by(writes: &mut List<Write>, block: u32, statement: &Statement) -> Result<(), ReadFault>
    ensures { MatchResult result (λ _. writes.new ≡ frames.write_by writes.old block statement.now) (λ e. e ≡ reason.Memory) }
{
    match statement {
        Statement::Write(one) => push(
            writes,
            Write {
                block,
                kind: kind_written(one.what),
                place: one.start,
            },
        ),
        Statement::Machine(_)
        | Statement::Include(_)
        | Statement::Alphtype(_)
        | Statement::Access(_)
        | Statement::Variable(_)
        | Statement::Action(_)
        | Statement::Definition(_) => Ok(()),
    }
}

/// The number of a block as it is kept: of more blocks than there is memory for it wants memory.
fn block_of(block: u64) -> Result<u32, ReadFault>
    ensures { MatchResult result (λ kept. kept ≡ block) (λ e. e ≡ reason.Memory) }
{
    match u32::try_from(block) {
        Ok(kept) => Ok(kept),
        Err(_) => Err(ReadFault::Memory),
    }
}

fn write_behind(machine: &[u8], writes: &mut List<Write>, step: &Step) -> Result<(), ReadFault>
    ensures { MatchResult result (λ _. writes.new ≡ frames.write_behind machine.now writes.old step.now) (λ e. e ≡ reason.Memory) }
{
    if !is_included(step) && is_of(machine, step) {
        let block = block_of(step.block)?;
        write_by(writes, block, &step.statement)
    } else {
        Ok(())
    }
}

/// The `write` statements of a machine that stand in the source itself.
pub fn writes_of(alloc: Global, machine: &[u8], own: &[&Step]) -> Result<List<Write>, ReadFault>
    ensures { MatchResult result (λ writes. writes ≡ frames.writes_of machine.now (pointed own.now)) (λ e. e ≡ reason.Memory) }
{
    let mut writes = List::new(alloc);
    for step in own {
        write_behind(machine, &mut writes, *step)?;
    }
    Ok(writes)
}

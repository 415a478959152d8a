// What is printed.
ghost use Rattle.std.specs.Prelude.{◌≡◌, ◌++◌, ◌∷◌, [], ◌==◌, ◌≤◌, length, take, drop, flat_map, OnOk, IfOk};
ghost use Rattle.std.specs.List.{prefix_len};
ghost use Rattle.rl_printed.specs.Jobs.{is_of, AscendFrom};
ghost use Rattle.rl_printed.specs.Printed as printed;
ghost use Rattle.rl_printed.specs.Printed.{job_text, printed_from};

use crate::job::Job;
use crate::memory::extend;
use crate::order::in_text_order;
use rl_cdata::data_text;
use rl_cexec::{exec_text, init_text};
use rl_lexical::Part;
use rl_model::{Spec, WriteKind};
use rl_tables::Tables;
use rl_types::Memory;
use std::alloc::Global;

/// The text that a `write` statement of a machine stands for.
fn write_text(
    alloc: Global,
    spec: &Spec,
    tables: &Tables,
    kind: WriteKind,
) -> Result<Vec<u8>, Memory>
    ensures { IfOk result (λ text. text.items ≡ printed.write_text spec.now tables.now kind) }
{
    match kind {
        WriteKind::Data => data_text(alloc, tables),
        WriteKind::Init => init_text(alloc, spec, tables, &spec.frame),
        WriteKind::Exec => exec_text(alloc, spec, tables, &spec.frame),
    }
}

/// Writes what a machine has at the place of a job.
fn push_written(
    alloc: Global,
    text: &mut Vec<u8>,
    spec: &Spec,
    tables: &Option<Tables>,
    number: usize,
) -> Result<(), Memory>
    ensures { OnOk result (text.new.items ≡ text.old.items ++ printed.written spec.now tables.now number) }
{
    let Some(tables) = tables else { return Ok(()) };
    match spec.writes.as_slice().get(number) {
        None => Ok(()),
        Some(write) => {
            let made = write_text(alloc, spec, tables, write.kind)?;
            extend(text, &made)
        }
    }
}

/// Writes the text of a job.
fn push_job(
    alloc: Global,
    text: &mut Vec<u8>,
    specs: &[Spec],
    tables: &[Option<Tables>],
    job: Job,
) -> Result<(), Memory>
    ensures { OnOk result (text.new.items ≡ text.old.items ++ job_text specs.now tables.now job) }
{
    let Some(spec) = specs.get(job.machine) else {
        return Ok(());
    };
    match tables.get(job.machine) {
        None => Ok(()),
        Some(tables) => push_written(alloc, text, spec, tables, job.number),
    }
}

/// Writes the texts of jobs.
fn push_jobs(
    alloc: Global,
    text: &mut Vec<u8>,
    specs: &[Spec],
    tables: &[Option<Tables>],
    jobs: &[Job],
) -> Result<(), Memory>
    ensures { OnOk result (text.new.items ≡ text.old.items ++ flat_map (job_text specs.now tables.now) jobs.now) }
{
    for job in jobs {
        push_job(alloc, text, specs, tables, *job)?;
    }
    Ok(())
}

/// How many jobs at the front are of a block.
fn count_of(block: usize, jobs: &[Job]) -> usize
    ensures value { result ≡ prefix_len (is_of block) jobs.now }
    ensures bound { result ≤ length jobs.now }
{
    jobs.iter()
        .take_while(|job| job.block as usize == block)
        .count()
}

/// The jobs of a block, which stand in front, and those behind them.
fn cut_block(block: usize, jobs: &[Job]) -> (&[Job], &[Job])
    ensures here { result.0.now ≡ take (prefix_len (is_of block) jobs.now) jobs.now }
    ensures behind { result.1.now ≡ drop (prefix_len (is_of block) jobs.now) jobs.now }
{
    jobs.split_at(count_of(block, jobs))
}

/// Writes the parts of a file, with these jobs in place of its blocks.
fn push_parts(
    alloc: Global,
    text: &mut Vec<u8>,
    parts: &[Part],
    specs: &[Spec],
    tables: &[Option<Tables>],
    jobs: &[Job],
) -> Result<(), Memory>
    requires { AscendFrom 0 jobs.now }
    ensures { OnOk result
        (text.new.items ≡ text.old.items ++ printed_from (job_text specs.now tables.now) 0 parts.now jobs.now) }
{
    let mut block = 0;
    let mut rest = jobs;
    for part in parts {
        match part {
            Part::Host(host) => extend(text, host.as_slice())?,
            Part::Block(_) => {
                let (here, behind) = cut_block(block, rest);
                push_jobs(alloc, text, specs, tables, here)?;
                rest = behind;
                block += 1;
            }
        }
    }
    Ok(())
}

/// The text of the file that a source file is compiled to, from the parts of the source file, the Specs of its
/// machines in order of first mention, and the tables of each, if it has any.
///
/// Host text stands as it is. In place of a block stand the texts of its `write` statements in text order (the
/// guide's section 5.7): the data section of the machine's tables, the text that sets a session to its start, or
/// the text that runs the machine. Each ends with a newline. A machine without tables prints nothing. Whether
/// `#line` is printed is said by the frame of each Spec. An `Err` is want of memory.
pub fn printed_text(
    alloc: Global,
    parts: &[Part],
    specs: &[Spec],
    tables: &[Option<Tables>],
) -> Result<Vec<u8>, Memory>
    ensures { IfOk result (λ text. text.items ≡ printed.printed parts.now specs.now tables.now) }
{
    let jobs = in_text_order(alloc, specs)?;
    let mut text = Vec::new(alloc);
    push_parts(alloc, &mut text, parts, specs, tables, &jobs)?;
    Ok(text)
}

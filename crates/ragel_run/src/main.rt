//! The program `ragel-run`: it replays a script on a source or on printed tables, and prints each call of the machine's
//! actions; it writes printed tables anew in their second version; and it runs a machine over the standard input, or over one
//! that is made.
#![tactic(auto)]

mod files;
mod made;
mod outside;
mod replay;
mod section;
mod source;
mod streamed;
mod tables;
#[cfg(test)]
mod tests;
mod upgrade;
mod words;

pub use replay::replay;
use rl_ends::{Refusal, status_for, tell};
use rl_io::{FileStore, InputSource, OutputSink};
use rl_types::{Status, Text};
use std::env;
use std::io::ErrorKind;
use std::process::ExitCode;

// The words behind the program's own name. A word that is not UTF-8 is no name of a file.
fn words_given(rt: &HostRuntime) -> Result<Vec<Text>, Refusal> {
    let mut words = Vec::new(rt.alloc());
    let arguments = match env::args(rt) {
        Ok(arguments) => arguments,
        Err(error) if error.kind() == ErrorKind::OutOfMemory => return Err(Refusal::Memory),
        Err(_) => return Err(Refusal::Usage),
    };
    for word in arguments.skip(1) {
        if words.push(Text::new(word)).is_err() {
            return Err(Refusal::Memory);
        }
    }
    Ok(words)
}

// The run over the files and the standard streams.
fn run_here(rt: &HostRuntime) -> Status {
    let mut err = OutputSink::new(rt.stderr());
    match words_given(rt) {
        Ok(words) => replay(
            rt.alloc(),
            &words,
            &mut FileStore::new(rt),
            &mut InputSource::new(rt.reader()),
            &mut OutputSink::new(rt.stdout()),
            &mut err,
        ),
        Err(refusal) => {
            let end = Err(refusal);
            let _ = tell(rt.alloc(), &end, &mut err);
            status_for(&end)
        }
    }
}

fn main(rt: HostRuntime) -> ExitCode {
    ExitCode::from(run_here(&rt).code())
}

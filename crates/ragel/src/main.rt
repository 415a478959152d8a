//! The program `ragel`: it compiles a source to a C file with the tables of its machines.
#![tactic(auto)]

use rl_compile::compile;
use rl_ends::{Refusal, status_for, tell};
use rl_io::{FileStore, OutputSink};
use rl_types::{Status, Text};
use std::env;
use std::io::ErrorKind;
use std::process::ExitCode;

// The words behind the program's own name. A word that is not UTF-8 is no name of a file.
fn words_given(rt: &HostRuntime) -> Result<Vec<Text>, Refusal> {
    let mut words = Vec::new(rt.alloc());
    let arguments = match env::args(rt) {
        Ok(arguments) => arguments,
        Err(error) if error.kind() == ErrorKind::OutOfMemory => return Err(Refusal::Memory),
        Err(_) => return Err(Refusal::Usage),
    };
    for word in arguments.skip(1) {
        if words.push(Text::new(word)).is_err() {
            return Err(Refusal::Memory);
        }
    }
    Ok(words)
}

// The compilation over the files and the standard streams.
fn compile_here(rt: &HostRuntime) -> Status {
    let mut err = OutputSink::new(rt.stderr());
    match words_given(rt) {
        Ok(words) => compile(
            rt.alloc(),
            &words,
            &mut FileStore::new(rt),
            &mut OutputSink::new(rt.stdout()),
            &mut err,
        ),
        Err(refusal) => {
            let end = Err(refusal);
            let _ = tell(rt.alloc(), &end, &mut err);
            status_for(&end)
        }
    }
}

fn main(rt: HostRuntime) -> ExitCode {
    ExitCode::from(compile_here(&rt).code())
}

//! The program: a run over the words of the command line, the files of the disk, and the standard streams.
#![tactic(auto)]

use coho_io::{DiskFiles, StdSink};
use coho_run::run;
use coho_steps::{Stop, report};
use std::io::ErrorKind;
use std::process::ExitCode;
use std::{env, io};

// The words after the program's name.
fn words_of(rt: &HostRuntime) -> io::Result<Vec<String>> {
    let mut words = Vec::new(rt.alloc());
    for word in env::args(rt)?.skip(1) {
        words.push(word)?;
    }
    Ok(words)
}

fn main(rt: HostRuntime) -> ExitCode {
    let alloc = rt.alloc();
    let mut err = StdSink::stderr(&rt);
    let words = match words_of(&rt) {
        Ok(words) => words,
        Err(fault) if fault.kind() == ErrorKind::OutOfMemory => {
            return ExitCode::from(report(alloc, Stop::Memory, &mut err).code());
        }
        // Words that can't be had as text are those of no command, as no words are.
        Err(_) => Vec::new(alloc),
    };
    let mut files = DiskFiles::new(&rt);
    let mut out = StdSink::stdout(&rt);
    ExitCode::from(run(alloc, &words, &mut files, &mut out, &mut err).code())
}

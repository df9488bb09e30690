// The command `effsan`: the real streams round the top call.
#![tactic(auto)]

use effsan_top::{
    FINISHED, InSource, OUT_OF_MEMORY, OutSink, REPORTED, STOPPED, WRITE_FAULT, effsan_still,
};
use std::io::{ErrorKind, Write};
use std::process::ExitCode;
use std::{env, io};

/// The status where the words cannot be got, which the top call never answers.
const NO_WORDS: u8 = 10;

/// The words after the program's name.
fn words(rt: &HostRuntime) -> io::Result<Vec<String>> {
    let mut words = Vec::new(rt.alloc());
    for word in env::args(rt)?.skip(1) {
        words.push(word)?;
    }
    Ok(words)
}

/// Runs the program, and flushes what it wrote. A flush that fails is a write fault, unless the status
/// already says that nothing was written.
fn run(rt: &HostRuntime, words: &[String]) -> u8 {
    let mut src = InSource::new(rt.stdin());
    let mut out = OutSink::new(rt.stdout());
    let mut err = OutSink::new(rt.stderr());
    let status = effsan_still(rt.alloc(), words, &mut src, &mut out, &mut err).status;
    match (out.into_inner().flush(), status) {
        (Err(_), FINISHED | REPORTED | STOPPED | WRITE_FAULT) => WRITE_FAULT,
        _ => status,
    }
}

fn main(rt: HostRuntime) -> ExitCode {
    let status = match words(&rt) {
        Ok(words) => run(&rt, words.as_slice()),
        Err(error) if error.kind() == ErrorKind::OutOfMemory => OUT_OF_MEMORY,
        Err(_) => NO_WORDS,
    };
    ExitCode::from(status)
}

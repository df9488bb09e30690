// Runs the program on the cases that stdin lists, and prints what each of them left.
#![tactic(auto)]

mod history;
mod outcome;
mod script;

use case_list::{case_of, made_text, text_of};
use outcome::outcome;
use script::{Script, script_of};
use std::io;
use std::io::{BufRead, BufReader};

/// The text of a case: made from its pattern, or read from its file.
fn text(rt: &HostRuntime, script: &Script) -> io::Result<Vec<u8>> {
    match &script.pattern {
        Some(pattern) => Ok(made_text(rt.alloc(), pattern.as_str())?.into_bytes()),
        None => text_of(rt, script.text.as_str()),
    }
}

fn main(rt: HostRuntime) -> io::Result<()> {
    let alloc = rt.alloc();
    for line in BufReader::new(alloc, rt.stdin())?.lines(alloc) {
        let Some(case) = case_of(alloc, line?.as_str())? else {
            continue;
        };
        let script = script_of(alloc, &case)?;
        let text = text(&rt, &script)?;
        let lines = outcome(alloc, &script, text.as_slice())?;
        rt.print(lines)?;
    }
    Ok(())
}

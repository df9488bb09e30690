// Runs the cases that stdin lists on tables of types, and prints what each of their steps answers. A case that is named
// `+` goes on with the table of the one before; each other begins a new one.
#![tactic(auto)]

mod adding;
mod asking;
mod steps;
mod words;

use c_types::TypeTable;
use case_list::{Case, case_of};
use std::alloc::{AllocError, Global};
use std::io::{self, BufRead, BufReader};
use steps::answer_of;

/// The line of a case: its name, and the answers of its steps.
fn line(alloc: Global, types: &mut TypeTable, case: &Case) -> Result<String, AllocError> {
    let mut line = case.name.clone()?;
    let mut mark = ": ";
    for step in case.fields.iter() {
        line.push_str(mark)?;
        line.push_str(answer_of(alloc, types, step.as_str())?.as_str())?;
        mark = "; ";
    }
    line.push('\n')?;
    Ok(line)
}

fn main(rt: HostRuntime) -> io::Result<()> {
    let alloc = rt.alloc();
    let mut types = TypeTable::new(alloc)?;
    for listed in BufReader::new(alloc, rt.stdin())?.lines(alloc) {
        let Some(case) = case_of(alloc, listed?.as_str())? else {
            continue;
        };
        if case.name.as_str() != "+" {
            types = TypeTable::new(alloc)?;
        }
        rt.print(line(alloc, &mut types, &case)?)?;
    }
    Ok(())
}

// Runs the cases that stdin lists on the heap of a region, and prints what each of their steps answers. A case that is named
// `+` goes on with the heap of the one before; each other begins with an empty heap of region 1.
#![tactic(auto)]

mod answers;
mod calls;
mod region;
mod steps;
mod types;
mod words;

use case_list::{Case, case_of};
use region::Region;
use std::alloc::{AllocError, Global};
use std::io::{self, BufRead, BufReader};
use steps::answer_of;

/// The line of a case: its name, and the answers of its steps.
fn line(alloc: Global, region: &mut Region, case: &Case) -> Result<String, AllocError> {
    let mut line = case.name.clone()?;
    let mut mark = ": ";
    for step in case.fields.iter() {
        line.push_str(mark)?;
        line.push_str(answer_of(alloc, region, step.as_str())?.as_str())?;
        mark = "; ";
    }
    line.push('\n')?;
    Ok(line)
}

fn main(rt: HostRuntime) -> io::Result<()> {
    let alloc = rt.alloc();
    let mut region = Region::new(alloc, types::table(alloc)?)?;
    for listed in BufReader::new(alloc, rt.stdin())?.lines(alloc) {
        let Some(case) = case_of(alloc, listed?.as_str())? else {
            continue;
        };
        if case.name.as_str() != "+" {
            region.renew(alloc, 1)?;
        }
        rt.print(line(alloc, &mut region, &case)?)?;
    }
    Ok(())
}

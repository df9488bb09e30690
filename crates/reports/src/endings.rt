//! The lines of the endings.

ghost use Rattle.std.specs.Prelude.{◌≡◌, ◌++◌, OnOk, IfOk};
ghost use Rattle.std.specs.List.{AllByRecursion};
ghost use Rattle.reports.specs.Lines as spec;
ghost use Rattle.reports.specs.Lines.{KnowsType};

use crate::report::append_report;
use c_types::TypeTable;
use heap_model::History;
use plain_meaning::{Ending, Record, Text};
use std::alloc::{AllocError, Global};

fn append_prefix(alloc: Global, to: &mut Text, worker: usize, line: u32) -> Result<(), AllocError>
    ensures { OnOk result (to.new ≡ to.old ++ spec.prefix worker line) }
{
    to.append(b"worker ")?;
    to.append(worker.to_string(alloc)?.as_bytes())?;
    to.append(b": line ")?;
    to.append(line.to_string(alloc)?.as_bytes())?;
    to.append(b": ")
}

fn append_ending(
    alloc: Global,
    to: &mut Text,
    history: &History,
    types: &TypeTable,
    worker: usize,
    ending: &Ending,
) -> Result<(), AllocError>
    requires { KnowsType types.now ending.now }
    ensures { OnOk result (to.new ≡ to.old ++ spec.ending_line history.now.entries types.now worker ending.now) }
{
    match ending {
        Ending::Finished => Ok(()),
        Ending::Spent(line) => {
            append_prefix(alloc, to, worker, *line)?;
            to.append(b"Spent\n")
        }
        Ending::Reported(report) => {
            append_prefix(alloc, to, worker, report.line)?;
            append_report(alloc, to, history, types, report)?;
            to.append(b"\n")
        }
    }
}

/// A line for each worker in order, from worker 0 on, whose ending is not `Finished`. What a report's pointer names is
/// looked for among all of the history, once for each pointer.
pub fn ending_lines(alloc: Global, run: &Record, types: &TypeTable) -> Result<Text, AllocError>
    requires { AllByRecursion (KnowsType types.now) run.now.endings }
    ensures { IfOk result (λ lines. lines ≡ spec.ending_lines run.now types.now) }
{
    let mut lines = Text::new(alloc);
    for (worker, ending) in run.endings.as_slice().iter().enumerate() {
        append_ending(alloc, &mut lines, &run.history, types, worker, ending)?;
    }
    Ok(lines)
}

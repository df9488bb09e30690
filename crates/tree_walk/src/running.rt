//! The run of a program.

ghost use Rattle.std.specs.Prelude.{◌≡◌, ◌<◌, length, Some, IfOk};
ghost use Rattle.std.specs.List.{AllByRecursion};
ghost use Rattle.c_types.specs.Table.{basic_types};
ghost use Rattle.plain_meaning.specs.Meaning.{body_of};
ghost use Rattle.plain_meaning.specs.Run.{Run, Works, checked_acts};
ghost use Rattle.region_heaps.specs.Entries.{StampsFrom};
ghost use Rattle.tree_walk.specs.Steps.{EndsAs};

use crate::heaps::{ProgramHeaps, law_calls};
use crate::stop::Stop;
use crate::walk::Walk;
use byte_texts::Text;
use layout_table::Table;
use plain_meaning::{Ending, Function, Program, Record, Setting};
use sqlite_items::Items;
use std::alloc::{AllocError, Global};

/// How a worker ended, what it printed, and the heaps with the calls that it made.
#[derive(Drop)]
struct Outcome<'a> {
    ending: Ending,
    text: Text,
    heaps: ProgramHeaps<'a>,
}

/// The record of a run of a program, from its start to its end. Each of the workers may take as many turns as the setting
/// says. The table is that of the basic types, which are all that these programs have.
pub fn run(
    alloc: Global,
    table: &Table,
    program: &Program,
    setting: &Setting,
) -> Result<Record, AllocError>
    requires types { table.now ≡ basic_types }
    requires entry { setting.now.entry < length program.now.functions }
    ensures run { IfOk result (λ run. Run program.now setting.now run) }
    ensures stamps { IfOk result (λ run. StampsFrom 1 run.history.entries) }
{
    let function = &program.functions.as_slice()[setting.entry as usize];
    let outcome = worker(alloc, table, function, setting.turns)?;
    let mut endings = Items::new(alloc);
    endings.push(Ending::Finished)?;
    endings.push(outcome.ending)?;
    let mut texts = Items::new(alloc);
    texts.push(Text::new(alloc))?;
    texts.push(outcome.text)?;
    texts.push(Text::new(alloc))?;
    law_calls(&outcome.heaps);
    Ok(Record {
        history: outcome.heaps.into_history(),
        endings,
        texts,
    })
}

/// What a worker does that runs this function.
fn worker<'a>(
    alloc: Global,
    table: &'a Table,
    function: &Function,
    turns: u32,
) -> Result<Outcome<'a>, AllocError>
    requires { table.now ≡ basic_types }
    ensures worked { IfOk result (λ outcome. Works (checked_acts turns (body_of turns (Some function.now))) outcome.heaps outcome.ending outcome.text) }
    ensures alone { IfOk result (λ outcome. AllByRecursion (λ e. e.worker ≡ 1) outcome.heaps) }
{
    let mut walk = Walk::new(alloc, table, turns)?;
    let left = walk.statement(alloc, &function.body);
    let ending = ending_of(left)?;
    Ok(Outcome {
        ending,
        text: walk.text,
        heaps: walk.heaps,
    })
}

/// The ending of a worker whose function is left so, unless it is out of memory.
fn ending_of(left: Result<(), Stop>) -> Result<Ending, AllocError>
    ensures { IfOk result (λ ending. EndsAs left ending) }
{
    match left {
        Ok(()) => Ok(Ending::Finished),
        Err(Stop::Ended(ending)) => Ok(ending),
        Err(Stop::Memory(error)) => Err(error),
    }
}

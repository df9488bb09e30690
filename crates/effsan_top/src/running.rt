//! To run a program over its types, and to tell what it prints.

ghost use Rattle.std.specs.Prelude.{◌≡◌, ◌<◌, length, IfOk};
ghost use Rattle.c_types.specs.Table.{basic_types};
ghost use Rattle.plain_meaning.specs.Run.{Run};
ghost use Rattle.region_heaps.specs.Entries.{StampsFrom};
ghost use Rattle.effsan_top.specs.Lines as spec;

use crate::answer::Answer;
use crate::lines::printed;
use c_types::TypeTable;
use layout_table::{Table, TableError};
use plain_meaning::{Program, Setting, law_wants};
use std::alloc::{AllocError, Global};
use tree_walk::run;

/// The layout table of the basic types, which have few rows.
fn layouts_of(alloc: Global, types: &TypeTable) -> Result<Table, AllocError>
    requires { types.now ≡ basic_types }
    ensures { IfOk result (λ table. table ≡ basic_types) }
{
    match Table::build(alloc, types) {
        Ok(table) => Ok(table),
        Err(TableError::Memory(error)) => Err(error),
        Err(TableError::TooManyRuns) => unreachable!(),
    }
}

/// Runs a function of a program on the heaps over this table.
fn run_over(
    alloc: Global,
    types: &TypeTable,
    table: &Table,
    program: &Program,
    setting: &Setting,
) -> Result<Answer, AllocError>
    requires types { types.now ≡ basic_types }
    requires table { table.now ≡ basic_types }
    requires entry { setting.now.entry < length program.now.functions }
    ensures run { IfOk result (λ answer. Run program.now setting.now answer.run) }
    ensures stamps { IfOk result (λ answer. StampsFrom 1 answer.run.history.entries) }
    ensures text { IfOk result (λ answer. answer.text ≡ spec.printed answer.run) }
{
    let run = run(alloc, table, program, setting)?;
    law_wants();
    let text = printed(alloc, &run, types)?;
    Ok(Answer { run, text })
}

/// Runs a function of a program. The types that these programs use are the basic ones.
pub fn run_program(
    alloc: Global,
    program: &Program,
    setting: &Setting,
) -> Result<Answer, AllocError>
    requires { setting.now.entry < length program.now.functions }
    ensures run { IfOk result (λ answer. Run program.now setting.now answer.run) }
    ensures stamps { IfOk result (λ answer. StampsFrom 1 answer.run.history.entries) }
    ensures text { IfOk result (λ answer. answer.text ≡ spec.printed answer.run) }
{
    let types = TypeTable::new(alloc)?;
    let table = layouts_of(alloc, &types)?;
    run_over(alloc, &types, &table, program, setting)
}

//! What is printed of a run.

ghost use Rattle.std.specs.Prelude.{◌≡◌, IfOk};
ghost use Rattle.std.specs.List.{AllByRecursion};
ghost use Rattle.c_types.specs.Table.{basic_types};
ghost use Rattle.reports.specs.Lines.{KnowsType};
ghost use Rattle.effsan_top.specs.Lines as spec;

use c_types::TypeTable;
use plain_meaning::{Record, Text};
use reports::ending_lines;
use std::alloc::{AllocError, Global};

/// The texts of a run in order, then a line for each ending that is not `Finished`.
pub fn printed(alloc: Global, run: &Record, types: &TypeTable) -> Result<Text, AllocError>
    requires types { types.now ≡ basic_types }
    requires known { AllByRecursion (KnowsType basic_types) run.now.endings }
    ensures { IfOk result (λ text. text ≡ spec.printed run.now) }
{
    let mut all = Text::new(alloc);
    for text in run.texts.as_slice() {
        all.append(text.bytes())?;
    }
    let lines = ending_lines(alloc, run, types)?;
    all.append(lines.bytes())?;
    Ok(all)
}

//! What a report tells.

ghost use Rattle.std.specs.Prelude.{◌≡◌, ◌≤◌, ◌++◌, OnOk, length};
ghost use Rattle.reports.specs.Lines as spec;

use crate::pointer::{append_bounds, append_pointer};
use crate::type_name::append_type;
use c_types::TypeTable;
use heap_model::{History, ReportKind};
use placed_objects::object_named;
use plain_meaning::{Report, Text};
use std::alloc::{AllocError, Global};

fn kind_name(kind: ReportKind) -> &'static [u8]
    ensures { result.now ≡ spec.kind_name kind }
{
    match kind {
        ReportKind::WrongType => b"WrongType",
        ReportKind::Bounds => b"Bounds",
        ReportKind::Free => b"Free",
        ReportKind::Null => b"Null",
        ReportKind::BadFree => b"BadFree",
        ReportKind::DoubleFree => b"DoubleFree",
        ReportKind::Align => b"Align",
        ReportKind::PointerBytes => b"PointerBytes",
        ReportKind::NotPointer => b"NotPointer",
        ReportKind::Escape => b"Escape",
        ReportKind::Compare => b"Compare",
    }
}

/// Adds what is told after the kind.
fn append_details(
    alloc: Global,
    to: &mut Text,
    history: &History,
    types: &TypeTable,
    report: &Report,
) -> Result<(), AllocError>
    requires { report.now.want ≤ length types.now.kinds }
    ensures { OnOk result (to.new ≡ to.old ++ spec.report_details history.now.entries types.now report.now) }
{
    if matches!(report.kind, ReportKind::Null) {
        return Ok(());
    }
    let first = object_named(history, report.first_reach.lo, report.first);
    to.append(b" ")?;
    append_pointer(alloc, to, first, report.first)?;
    match report.kind {
        ReportKind::WrongType => {
            to.append(b" want ")?;
            append_type(to, types, report.want)
        }
        ReportKind::Bounds | ReportKind::Escape => {
            append_bounds(alloc, to, first, report.first_reach)
        }
        ReportKind::Compare => {
            let second = object_named(history, report.second_reach.lo, report.second);
            to.append(b" ")?;
            append_pointer(alloc, to, second, report.second)
        }
        _ => Ok(()),
    }
}

/// Adds the line of a report after its prefix.
pub fn append_report(
    alloc: Global,
    to: &mut Text,
    history: &History,
    types: &TypeTable,
    report: &Report,
) -> Result<(), AllocError>
    requires { report.now.want ≤ length types.now.kinds }
    ensures { OnOk result (to.new ≡ to.old ++ spec.report_line history.now.entries types.now report.now) }
{
    to.append(kind_name(report.kind))?;
    append_details(alloc, to, history, types, report)
}

//! Reports, which end a worker.

ghost use Rattle.std.specs.Prelude.{◌≡◌};
ghost use Rattle.plain_meaning.specs.Points as points;

use crate::pointers::NOWHERE;
use c_types::TypeNo;
use heap_model::{Reach, ReportKind};
use plain_meaning::{CheckedPointer, Report};

/// What a report is about: the line, the word with the reach that belongs to it, and the type that was wanted, or 0.
#[derive(Clone, Copy, Debug)]
pub(crate) struct Subject {
    pub(crate) line: u32,
    pub(crate) word: u64,
    pub(crate) reach: Reach,
    pub(crate) want: TypeNo,
}

impl Subject {
    /// An access by a pointer, or what is never reported.
    pub(crate) fn of(line: u32, pointer: &CheckedPointer) -> Subject
        ensures { result ≡ record { line = line; word = pointer.now.word; reach = pointer.now.reach; want = 0 } }
    {
        Subject {
            line,
            word: pointer.word,
            reach: pointer.reach,
            want: 0,
        }
    }

    /// The report of this kind: what does not belong to it is 0.
    pub(crate) fn report(&self, kind: ReportKind) -> Report
        ensures { result ≡ points.report_on kind self.now.line self.now.word self.now.reach self.now.want }
    {
        let mut report = Report {
            kind,
            line: self.line,
            first: 0,
            first_reach: NOWHERE,
            second: 0,
            second_reach: NOWHERE,
            want: 0,
        };
        if kind != ReportKind::Null {
            report.first = self.word;
            report.first_reach = self.reach;
        }
        if kind == ReportKind::WrongType {
            report.want = self.want;
        }
        report
    }
}

/// The report of a pointer that is out of its reach.
pub(crate) fn escape(line: u32, pointer: &CheckedPointer) -> Report
    ensures { result ≡ points.escape line pointer.now }
{
    Subject::of(line, pointer).report(ReportKind::Escape)
}

//! The record of a run.

use byte_texts::Text;
use c_types::TypeNo;
use heap_model::{History, Reach, ReportKind};
use sqlite_items::Items;

/// What ended a worker: the kind, the line, and the pointers that it is about, each with the reach that belongs to it.
/// What does not belong to the kind is 0. A check or a free has the bounds of the pointer's slot, an access its own reach,
/// and a pointer that is null stands in no report.
#[derive(Clone, Copy, Debug, PartialEq, Eq)]
pub struct Report {
    pub kind: ReportKind,
    pub line: u32,
    pub first: u64,
    pub first_reach: Reach,
    pub second: u64,
    pub second_reach: Reach,
    pub want: TypeNo,
}

/// How a worker ended. The number is the line of the turn that the limit left no room for.
#[derive(Clone, Copy, Debug, PartialEq, Eq)]
pub enum Ending {
    Finished,
    Spent(u32),
    Reported(Report),
}

/// Which function worker 1 runs, by its number, and how many turns each worker may take.
#[derive(Clone, Copy, Debug, PartialEq, Eq)]
pub struct Setting {
    pub entry: u32,
    pub turns: u32,
}

/// All calls on the heap with their replies, in order; the ending of worker 0, which opens and closes the run, and of
/// worker 1; what was printed before worker 1, by it, and after it. All are empty where nothing ran.
#[derive(Debug, Drop)]
pub struct Record {
    pub history: History,
    pub endings: Items<Ending>,
    pub texts: Items<Text>,
}

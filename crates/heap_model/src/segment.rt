//! The segments that a history is kept in.

ghost use Rattle.std.specs.Prelude.{◌≡◌, ◌-◌, ◌<◌, ◌≤◌, ◌↔◌, [], ◌∷◌, ◌++◌, length, slice_index_or, IsTrue, IfOk, OnOk, OnErr};
ghost use Rattle.heap_model.specs.History.{segment_entries};

use crate::calls::Entry;
use crate::row::{Row, entry_at, row_of};
use std::alloc::{AllocError, Global};
use std::marker::Model;

/// How many entries a segment has.
pub(crate) const SEGMENT: usize = 1024;

/// Up to 1,024 entries: a row for each, and beside the rows those entries that fit in none.
#[derive(Debug, Drop)]
pub(crate) struct Segment {
    rows: Vec<Row>,
    whole: Vec<Entry>,
    /// Whether there is memory for one more entry, of whatever numbers.
    reserved: bool,
}

impl Model for Segment {
    ghost use Rattle.heap_model.specs.History.{SegmentLog};

    ghost Value = { SegmentLog };

    ghost use Rattle.heap_model.specs.Segment.{segment_log, IsSegment};

    ghost view = { segment_log };

    ghost invariant = { IsSegment };
}

impl Segment {
    /// A segment that takes no memory and no entry.
    pub(crate) fn unmade(alloc: Global) -> Segment
        ensures { result ≡ record { entries = []; spare = 0; places = 0 } }
    {
        Segment {
            rows: Vec::new(alloc),
            whole: Vec::new(alloc),
            reserved: false,
        }
    }

    /// An empty segment, with memory for its rows and for one entry that stands whole.
    pub(crate) fn new(alloc: Global) -> Result<Segment, AllocError>
        ensures { IfOk result (λ s. s ≡ record { entries = []; spare = 1; places = segment_entries }) }
    {
        let rows = Vec::with_capacity(alloc, SEGMENT)?;
        let whole = Vec::with_capacity(alloc, 1)?;
        Ok(Segment {
            rows,
            whole,
            reserved: true,
        })
    }

    /// Whether a place is left, taken or not.
    pub(crate) fn has_place(&self) -> bool
        ensures { IsTrue result ↔ (length self.now.entries < self.now.places) }
    {
        self.rows.len() < self.rows.capacity()
    }

    /// Gets the memory for one more entry, unless it is there.
    pub(crate) fn reserve(&mut self) -> Result<(), AllocError>
        requires { length self.old.entries < self.old.places }
        ensures ok { OnOk result (self.new ≡ record self.old { spare = 1 }) }
        ensures spare { self.old.spare ≤ self.new.spare }
        ensures err { OnErr result (self.new ≡ self.old) }
        ensures full { OnErr result (self.old.spare ≡ 0) }
    {
        self.whole.reserve(1)?;
        self.reserved = true;
        Ok(())
    }

    /// Adds an entry at the end, in memory that is there.
    pub(crate) fn push(&mut self, entry: Entry)
        requires { 1 ≤ self.old.spare }
        ensures { self.new ≡ record self.old { entries = self.old.entries ++ entry ∷ []; spare = self.old.spare - 1 } }
    {
        self.reserved = false;
        match row_of(&entry) {
            Some(row) => self.rows.push_reserved(row),
            None => {
                let place = self.whole.len() as u32;
                self.whole.push_reserved(entry);
                self.rows.push_reserved(Row::Whole(place));
            }
        }
    }

    pub(crate) fn len(&self) -> usize
        ensures { result ≡ length self.now.entries }
    {
        self.rows.len()
    }

    pub(crate) fn is_empty(&self) -> bool
        ensures { IsTrue result ↔ (length self.now.entries ≡ 0) }
    {
        self.rows.is_empty()
    }

    /// The entry at a place, counted from 0.
    pub(crate) fn get(&self, at: usize) -> Entry
        requires { at < length self.now.entries }
        ensures { result ≡ slice_index_or self.now.entries at result }
    {
        entry_at(&self.rows[at], self.whole.as_slice())
    }
}

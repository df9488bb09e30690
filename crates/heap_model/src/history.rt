//! The record of calls and replies.

ghost use Rattle.std.specs.Prelude.{◌≡◌, ◌≤◌, ◌<◌, ◌+◌, ◌-◌, ◌^◌, [], ◌∷◌, ◌++◌, length, option_to_list, slice_get, Some, OnOk, OnErr, IfNone};
ghost use Rattle.heap_model.specs.History.{most_entries};

use crate::calls::Entry;
use crate::segment::{SEGMENT, Segment};
use std::alloc::{AllocError, Global};
use std::collections::VecDeque;
use std::marker::Model;
use std::mem;

/// How many segments a history has at most: all together have room for 2^37 entries.
const MOST_SEGMENTS: usize = 1 << 27;

/// A list of entries, with room for further ones made beforehand. An entry stays where it was put, in a segment of 1,024.
#[derive(Debug, Drop)]
pub struct History {
    alloc: Global,
    /// The segments in which there is no place left.
    full: VecDeque<Segment>,
    /// The segment that takes the next entries.
    last: Segment,
}

impl Model for History {
    ghost use Rattle.heap_model.specs.History.{Log};

    ghost Value = { Log };

    ghost use Rattle.heap_model.specs.Segments.{log_of, IsSegmented};

    ghost view = { log_of };

    ghost invariant = { IsSegmented };
}

impl History {
    /// The empty history, which takes no memory.
    pub fn new(alloc: Global) -> History
        ensures { result ≡ record { entries = []; spare = 0 } }
    {
        History {
            alloc,
            full: VecDeque::new(alloc),
            last: Segment::unmade(alloc),
        }
    }

    /// Makes room for one more entry, unless there is some. A history of 2^37 entries gets no more.
    pub fn room(&mut self) -> Result<(), AllocError>
        ensures entries { self.new.entries ≡ self.old.entries }
        ensures spare { self.old.spare ≤ self.new.spare }
        ensures ok { OnOk result (1 ≤ self.new.spare) }
        ensures err { OnErr result (self.new ≡ self.old) }
        ensures full { OnErr result (self.old.spare ≡ 0) }
    {
        if self.last.has_place() {
            return self.last.reserve();
        }
        if self.full.len() + 1 >= MOST_SEGMENTS {
            return Err(AllocError);
        }
        self.full.reserve(1)?;
        let next = Segment::new(self.alloc)?;
        let filled = mem::replace(&mut self.last, next);
        if !filled.is_empty() {
            self.full.push_back_reserved(filled);
        }
        Ok(())
    }

    /// Adds an entry at the end, in a spare place.
    pub fn push(&mut self, entry: Entry)
        requires { 1 ≤ self.old.spare }
        ensures entries { self.new.entries ≡ self.old.entries ++ entry ∷ [] }
        ensures spare { self.new.spare + 1 ≡ self.old.spare }
    {
        self.last.push(entry);
    }

    /// How many entries there are.
    pub fn len(&self) -> u64
        ensures value { result ≡ length self.now.entries }
        ensures most { result + self.now.spare ≤ most_entries }
    {
        self.full.len() as u64 * SEGMENT as u64 + self.last.len() as u64
    }

    /// The entry at a place, counted from 0.
    pub fn get(&self, at: u64) -> Entry
        requires { at < length self.now.entries }
        ensures { slice_get self.now.entries at ≡ Some result }
    {
        let place = at as usize % SEGMENT;
        let segment = at as usize / SEGMENT;
        if segment < self.full.len() {
            self.full[segment].get(place)
        } else {
            self.last.get(place)
        }
    }

    /// The entries from the first on.
    pub fn into_entries(self) -> Entries
        ensures { result ≡ self.entries }
    {
        Entries {
            full: self.full,
            last: self.last,
            at: 0,
        }
    }
}

/// The entries of a history that are left to go through. A segment is given up behind its last entry.
#[derive(Drop)]
pub struct Entries {
    full: VecDeque<Segment>,
    last: Segment,
    /// The place of the next entry in the first segment that is left.
    at: usize,
}

impl Model for Entries {
    ghost use Rattle.std.specs.Prelude.{List};
    ghost use Rattle.heap_model.specs.declared.calls.Entry.{Entry};

    ghost Value = { List Entry };

    ghost use Rattle.heap_model.specs.Segments.{left_of, IsRest};

    ghost view = { left_of };

    ghost invariant = { IsRest };
}

impl Entries {
    /// The next entry, or none behind the last.
    pub fn take_next(&mut self) -> Option<Entry>
        ensures entries { self.old ≡ option_to_list result ++ self.new }
        ensures none { IfNone result (self.old ≡ []) }
    {
        let Some(first) = self.full.front() else {
            if self.at >= self.last.len() {
                return None;
            }
            let entry = self.last.get(self.at);
            self.at += 1;
            return Some(entry);
        };
        let entry = first.get(self.at);
        self.at += 1;
        if self.at == SEGMENT {
            let _ = self.full.pop_front();
            self.at = 0;
        }
        Some(entry)
    }
}

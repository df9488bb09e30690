//! What is known of macros while the table of macros stays as it is.

ghost use Rattle.std.specs.Prelude.{◌≡◌, ◌+◌, ◌<◌, ◌≤◌, true, false, All, None, Some, length, map, replicate, slice_set, IfOk};

use crate::span::Span;
use std::alloc::{AllocError, Global};

/// A macro that is being replaced, or one of which the tokens that stand for it are known: they are this part of what was
/// put out.
#[derive(Clone, Copy, Debug)]
pub enum Mark {
    Open,
    Known(Span),
}

/// A mark, and how many changes the table had seen when it was made; 0 where none was made.
#[derive(Clone, Copy, Debug)]
pub struct Stamped {
    pub changes: usize,
    pub mark: Mark,
}

/// The marks of macros by number, and for each name how many changes the table had seen when it was last met in what
/// stands for a macro, or 0. What is older than the last change that took marks back counts no more.
#[derive(Drop)]
pub struct Marks {
    pub stamped: Vec<Stamped>,
    pub meetings: Vec<usize>,
    pub changes: usize,
    ghost past: { All (λ s. s.changes ≤ changes) stamped.items },
    ghost met_past: { All (λ met. met ≤ changes) meetings.items },
    ghost alike: { length meetings.items ≡ length stamped.items },
}

impl Marks {
    ghost use Rattle.c_pp.specs.Marked.{marks_of, mark_at, met_of, is_met, met_also};

    /// No marks, for so many macros.
    pub fn new(alloc: Global, count: usize) -> Result<Marks, AllocError>
        ensures none { IfOk result (λ marks. marks_of marks ≡ replicate count None) }
        ensures none_met { IfOk result (λ marks. met_of marks ≡ replicate count false) }
        ensures first { IfOk result (λ marks. marks.changes ≡ 1) }
    {
        let unmarked = Stamped {
            changes: 0,
            mark: Mark::Open,
        };
        Ok(Marks {
            stamped: vec![in alloc; unmarked; count]?,
            meetings: vec![in alloc; 0; count]?,
            changes: 1,
        })
    }

    /// The mark of a macro.
    pub fn get(&self, number: usize) -> Option<Mark>
        ensures { result ≡ mark_at (marks_of self.now) number }
    {
        let stamped = self.stamped.get(number)?;
        if stamped.changes == self.changes {
            Some(stamped.mark)
        } else {
            None
        }
    }

    /// Marks a macro.
    pub fn set(&mut self, number: usize, mark: Mark)
        ensures set { marks_of self.new ≡ slice_set (marks_of self.old) number (Some mark) }
        ensures same_met { met_of self.new ≡ met_of self.old }
        ensures unchanged { self.new.changes ≡ self.old.changes }
    {
        if number < self.stamped.len() {
            self.stamped[number] = Stamped {
                changes: self.changes,
                mark,
            };
        }
    }

    /// Whether a name was met.
    pub fn is_met(&self, number: usize) -> bool
        ensures { result ≡ is_met (met_of self.now) number }
    {
        match self.meetings.get(number) {
            Some(met) => *met == self.changes,
            None => false,
        }
    }

    /// A name is met.
    pub fn meet(&mut self, number: usize)
        ensures met { met_of self.new ≡ slice_set (met_of self.old) number true }
        ensures same_marks { marks_of self.new ≡ marks_of self.old }
        ensures unchanged { self.new.changes ≡ self.old.changes }
    {
        if number < self.meetings.len() {
            self.meetings[number] = self.changes;
        }
    }

    /// A token is met: where it is a name, that name.
    pub fn meet_token(&mut self, number: Option<usize>)
        ensures met { met_of self.new ≡ met_also (met_of self.old) number }
        ensures same_marks { marks_of self.new ≡ marks_of self.old }
        ensures unchanged { self.new.changes ≡ self.old.changes }
    {
        if let Some(number) = number {
            self.meet(number);
        }
    }

    /// Takes all marks back: the table changes.
    pub fn forget(&mut self)
        requires { self.old.changes < usize.MAX }
        ensures none { marks_of self.new ≡ map (λ _. None) (marks_of self.old) }
        ensures none_met { met_of self.new ≡ map (λ _. false) (met_of self.old) }
        ensures more { self.new.changes ≡ self.old.changes + 1 }
    {
        self.changes += 1;
    }
}

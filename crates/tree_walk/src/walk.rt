//! A worker on its way through the typed tree.

ghost use Rattle.std.specs.Prelude.{◌≡◌, ◌-◌, ◌<◌, [], ◌++◌, true, IsSome, IfOk, OnOk};
ghost use Rattle.c_types.specs.Table.{basic_types};
ghost use Rattle.heap_model.specs.Forms.{fits_call, suits_call};
ghost use Rattle.heap_model.specs.Forms as forms;
ghost use Rattle.heap_model.specs.Legal.{knows_types};
ghost use Rattle.plain_meaning.specs.Meaning.{number_line};
ghost use Rattle.plain_meaning.specs.Run.{layouts};
ghost use Rattle.plain_meaning.specs.Tree.{Turn};
ghost use Rattle.tree_walk.specs.Steps.{Leads, IsAsked, IsNoReport, no_value};

use crate::heaps::ProgramHeaps;
use crate::reports::Subject;
use crate::stop::Stop;
use byte_texts::Text;
use heap_model::{Call, Reply};
use layout_table::Table;
use plain_meaning::{CheckedPointer, Ending, Scalar};
use std::alloc::{AllocError, Global};

/// The worker whose calls the walk makes.
const WORKER: u32 = 1;

/// The variables in scope, what was printed, how many turns are left, and the heaps with the history of all calls.
#[derive(Drop)]
pub(crate) struct Walk<'a> {
    pub(crate) variables: Vec<Scalar<CheckedPointer>>,
    pub(crate) text: Text,
    pub(crate) left: u32,
    pub(crate) heaps: ProgramHeaps<'a>,
}

impl<'a> Walk<'a> {
    pub(crate) fn new(alloc: Global, table: &'a Table, turns: u32) -> Result<Walk<'a>, AllocError>
        requires { table.now ≡ basic_types }
        ensures variables { IfOk result (λ walk. walk.variables.items ≡ []) }
        ensures text { IfOk result (λ walk. walk.text ≡ []) }
        ensures left { IfOk result (λ walk. walk.left ≡ turns) }
        ensures heaps { IfOk result (λ walk. walk.heaps ≡ []) }
    {
        Ok(Walk {
            variables: Vec::new(alloc),
            text: Text::new(alloc),
            left: turns,
            heaps: ProgramHeaps::new(alloc, table)?,
        })
    }

    /// Takes a turn on a line, where one is left.
    pub(crate) fn turn(&mut self, line: u32) -> Result<(), Stop>
        ensures leads { Leads self.old (λ next. Turn line (next tt)) no_value result self.new }
        ensures after { self.new ≡ record self.old { left = self.old.left - 1 } }
        ensures taken { OnOk result (self.new.left < self.old.left) }
    {
        if self.left == 0 {
            return Err(Stop::Ended(Ending::Spent(line)));
        }
        self.left -= 1;
        Ok(())
    }

    /// Prints a number and the end of a line.
    pub(crate) fn print_line(&mut self, alloc: Global, value: i32) -> Result<(), AllocError>
        ensures { OnOk result (self.new ≡ record self.old { text = self.old.text ++ number_line value }) }
    {
        let digits = value.to_string(alloc)?;
        self.text.append(digits.as_bytes())?;
        self.text.push(b'\n')?;
        Ok(())
    }

    /// Makes a call on the heap. A report ends the worker.
    pub(crate) fn ask(&mut self, call: &Call, subject: &Subject) -> Result<Reply, Stop>
        requires region { IsSome (forms.region_for call.now) }
        requires fits { fits_call call.now ≡ true }
        requires types { knows_types layouts call.now ≡ true }
        ensures asked { IsAsked self.old call.now subject.now result self.new }
        ensures suits { IfOk result (λ reply. suits_call call.now reply ≡ true) }
        ensures told { IfOk result (λ reply. IsNoReport reply) }
        ensures others { self.new ≡ record self.old { heaps = self.new.heaps } }
    {
        match self.heaps.call(WORKER, call)? {
            Reply::Report(kind) => Err(Stop::Ended(Ending::Reported(subject.report(kind)))),
            reply => Ok(reply),
        }
    }
}

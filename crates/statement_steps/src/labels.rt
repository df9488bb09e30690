//! The labels of a `switch` so far (C11 6.8.4.2p3).

ghost use Rattle.std.specs.Prelude.{◌≡◌, true, OnOk};
ghost use Rattle.declaration_rules.specs.Statements as spec;

use std::alloc::{AllocError, Global};
use std::collections::BTreeSet;
use std::marker::Model;

/// The cases of a `switch` so far, and whether it has a `default`: contracts see the list of the cases, the last one
/// first. A look-up takes logarithmic time.
#[derive(Drop)]
pub struct Labels {
    cases: Vec<i128>,
    values: BTreeSet<i128>,
    default: bool,
}

impl Model for Labels {
    ghost use Rattle.std.specs.Prelude.{reverse};
    ghost use Rattle.declaration_rules.specs.Statements.{Labels};
    ghost use Rattle.statement_steps.specs.Cases.{HasCases};

    ghost Value = { Labels };

    ghost view = { λ l. record { cases = reverse l.cases.items; default = l.default } };

    ghost invariant = { λ l. HasCases l.values (reverse l.cases.items) };
}

impl Labels {
    /// No labels, which take no memory.
    pub fn new(alloc: Global) -> Labels
        ensures { result ≡ spec.no_labels }
    {
        Labels {
            cases: Vec::new(alloc),
            values: BTreeSet::new(alloc),
            default: false,
        }
    }

    /// Whether a case has this value, which is converted to the type of the `switch`.
    pub fn has_case(&self, value: i128) -> bool
        ensures { result ≡ spec.is_case value self.now.cases }
    {
        self.values.contains(&value)
    }

    /// Adds a case.
    pub(crate) fn add_case(&mut self, value: i128) -> Result<(), AllocError>
        ensures { OnOk result (self.new ≡ spec.with_case value self.old) }
    {
        self.cases.reserve(1)?;
        match self.values.insert(value) {
            Ok(_) => {}
            Err(_) => return Err(AllocError),
        }
        let stored: Result<_, _> = self.cases.push(value);
        stored.unwrap();
        Ok(())
    }

    pub fn has_default(&self) -> bool
        ensures { result ≡ self.now.default }
    {
        self.default
    }

    /// Adds `default`.
    pub(crate) fn add_default(&mut self)
        ensures { self.new ≡ record self.old { default = true } }
    {
        self.default = true;
    }
}

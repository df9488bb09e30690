//! The variables in scope, and what each name means.

ghost use Rattle.std.specs.Prelude.{◌≡◌, [], ◌∷◌, ◌++◌, length, take, slice_get, OnOk, OnErr};
ghost use Rattle.scoped_names.specs.Names.{last_place};
ghost use Rattle.form_parts.specs.Variables.{meaning, number_of, pointer_of};
ghost use Rattle.form_parts.specs.Variables as spec;

use crate::reserved::is_reserved;
use crate::sort::Sort;
use plain_meaning::Pointer;
use scoped_names::Names;
use std::alloc::{AllocError, Global};
use std::marker::Model;
use token_texts::TokenTexts;

/// The variables in scope, the outermost first: contracts see the list of their names and sorts.
#[derive(Drop)]
pub struct Scope {
    names: Names,
    sorts: Vec<Sort>,
}

impl Model for Scope {
    ghost use Rattle.std.specs.Prelude.{◌≡◌, List, length};
    ghost use Rattle.std.specs.List.{zip};
    ghost use Rattle.form_parts.specs.Variables.{Variable};

    ghost Value = { List Variable };

    ghost view = { λ s. zip s.names s.sorts.items };

    ghost invariant = { λ s. length s.sorts.items ≡ length s.names };
}

fn sort_at(sorts: &[Sort], at: usize) -> Option<Sort>
    ensures { result ≡ slice_get sorts.now at }
{
    sorts.get(at).copied()
}

impl Scope {
    pub fn new(alloc: Global) -> Scope
        ensures { result ≡ [] }
    {
        Scope {
            names: Names::new(alloc),
            sorts: Vec::new(alloc),
        }
    }

    /// How many variables are in scope.
    pub fn len(&self) -> usize
        ensures { result ≡ length self.now }
    {
        self.sorts.len()
    }

    /// The variable that the name means, and its sort.
    pub fn find(&self, name: u32) -> Option<(usize, Sort)>
        ensures { result ≡ meaning self.now name }
    {
        let Some(variable) = self.names.find(name) else {
            return None;
        };
        match sort_at(self.sorts.as_slice(), variable) {
            Some(sort) => Some((variable, sort)),
            None => None,
        }
    }

    /// The variable that the name means, if it holds a number.
    #[tactic(auto, unfolding(crate::specs::Variables::number_of))]
    pub fn number(&self, name: u32) -> Option<usize>
        ensures { result ≡ number_of self.now name }
    {
        match self.find(name) {
            Some((variable, Sort::Number)) => Some(variable),
            _ => None,
        }
    }

    /// The variable that the name means, if it holds a pointer.
    #[tactic(auto, unfolding(crate::specs::Variables::pointer_of))]
    pub fn pointer(&self, name: u32) -> Option<Pointer>
        ensures { result ≡ pointer_of self.now name }
    {
        match self.find(name) {
            Some((variable, Sort::Pointer(target))) => Some(Pointer { variable, target }),
            _ => None,
        }
    }

    /// Whether a variable after the first `start` has the name.
    fn is_since(&self, start: usize, name: u32) -> bool
        ensures { result ≡ spec.is_since start (last_place (spec.names self.now) name) }
    {
        match self.names.find(name) {
            Some(variable) => start <= variable,
            None => false,
        }
    }

    /// Whether the name may not be declared in a block whose variables begin at `start`.
    pub fn is_taken(&self, texts: &TokenTexts, start: usize, name: u32) -> bool
        ensures { result ≡ spec.is_taken texts.now start self.now name }
    {
        is_reserved(texts, name) || self.is_since(start, name)
    }

    /// Declares a variable after all others.
    pub fn declare(&mut self, name: u32, sort: Sort) -> Result<(), AllocError>
        ensures ok { OnOk result (self.new ≡ self.old ++ (name, sort) ∷ []) }
        ensures err { OnErr result (self.new ≡ self.old) }
    {
        self.sorts.reserve(1)?;
        self.names.declare(name)?;
        let stored: Result<_, _> = self.sorts.push(sort);
        stored.unwrap();
        Ok(())
    }

    /// Ends the scope of all variables but the first `start`.
    pub fn close(&mut self, start: usize)
        ensures { self.new ≡ take start self.old }
    {
        self.names.close(start);
        self.sorts.truncate(start);
    }
}

//! What an initialiser was found to store.

ghost use Rattle.std.specs.Prelude.{◌≡◌, ◌++◌, ◌∷◌, [], None, Some, OnOk};
ghost use Rattle.declaration_rules.specs.Initialisers.{in_braces};
ghost use Rattle.declaration_rules.specs.Stores as spec;
ghost use Rattle.declaration_rules.specs.Stores.{Found as Finding};
ghost use Rattle.initialiser_steps.specs.Adds.{Adds};
ghost use Rattle.initialiser_steps.specs.Braces.{IsWithin};
ghost use Rattle.initialiser_steps.specs.Seen.{stored_by};
ghost use Rattle.rule_answers.specs.Gives.{GivesState};
ghost use Rattle.static_rules.specs.declared.states.State.{State as Whole};

use crate::braces::{first_told, kind_of_unfit};
use crate::stored::StoredPart;
use crate::stores::Store;
use declaration_rules::{Step, Unfit};
use rule_answers::{fault, out_of_memory};
use sqlite_items::Items;
use static_rules::CheckError;
use std::alloc::Global;
use std::marker::Model;

/// What an initialiser was found to store so far, in the order of the text, and why a part of it does not fit, if one
/// does not.
#[derive(Drop)]
pub struct Found {
    stores: Items<Store>,
    unfit: Option<Unfit>,
}

impl Model for Found {
    ghost use Rattle.c_tree.specs.contracts.values.Place as place;
    ghost use Rattle.c_tree.specs.contracts.values.Value as value;
    ghost use Rattle.declaration_rules.specs.Stores.{Found as Finding};
    ghost use Rattle.std.specs.Coded.{codes};

    ghost Value = { Finding };

    ghost coded = { Prim.hlevel (codes, place.the_row.coded, value.the_row.coded) };

    ghost view = { λ f. record { stores = f.stores; unfit = f.unfit } };
}

impl Found {
    /// Nothing, which takes no memory.
    pub fn new(alloc: Global) -> Found
        ensures { result ≡ spec.nothing }
    {
        Found {
            stores: Items::new(alloc),
            unfit: None,
        }
    }

    /// Why a part does not fit, if one does not.
    pub fn unfit(&self) -> Option<Unfit>
        ensures { result ≡ self.now.unfit }
    {
        self.unfit
    }

    pub fn into_stores(self) -> Items<Store>
        ensures { result ≡ self.stores }
    {
        let Found { stores, unfit: _ } = self;
        stores
    }

    /// A part does not fit.
    #[tactic(auto, using(crate::proofs::FoundLemmas::with_unfit))]
    pub fn add_unfit(&mut self, reason: Unfit)
        ensures { self.new ≡ spec.then_found self.old (spec.unfit reason) }
    {
        self.unfit = first_told(self.unfit, Some(reason));
    }

    /// A part is stored behind all others.
    #[tactic(auto, using(crate::proofs::FoundLemmas::with_store))]
    pub(crate) fn add_store(
        &mut self,
        alloc: Global,
        path: &[Step],
        what: StoredPart,
    ) -> Result<(), CheckError>
        ensures { Adds (spec.stored path.now (stored_by what)) result self.old self.new }
    {
        let Ok(path) = Items::from_slice(alloc, path) else {
            return Err(out_of_memory());
        };
        match self.stores.push(Store::new(path, what)) {
            Ok(()) => Ok(()),
            Err(_) => Err(out_of_memory()),
        }
    }

    /// Braces begin: what does not fit before them waits for their end.
    pub fn begin_braces(&mut self) -> Option<Unfit>
        ensures waits { result ≡ self.old.unfit }
        ensures after { self.new ≡ record self.old { unfit = None } }
    {
        let waits = self.unfit;
        self.unfit = None;
        waits
    }

    /// Braces end that began on a line, where this waited for their end. What does not fit within them is a fault
    /// there.
    #[tactic(auto, using(crate::proofs::FoundLemmas::after_braces, crate::proofs::FoundLemmas::braces_tell, crate::proofs::FoundLemmas::braces_pass))]
    pub fn end_braces(&mut self, here: u32, waits: Option<Unfit>) -> Result<(), CheckError>
        ensures answer { (before within : Finding) (s : Whole) → IsWithin self.old before within →
            GivesState (in_braces here (within, s)) result (within, s) }
        ensures after { (before within : Finding) → before.unfit ≡ waits → IsWithin self.old before within →
            OnOk result (self.new ≡ spec.then_found before within) }
    {
        if let Some(reason) = self.unfit {
            return Err(fault(kind_of_unfit(reason), here));
        }
        self.unfit = waits;
        Ok(())
    }
}

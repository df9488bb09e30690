//! A store of an initialiser.

ghost use Rattle.std.specs.Prelude.{◌≡◌};
ghost use Rattle.initialiser_steps.specs.Seen.{stored_by};

use crate::stored::StoredPart;
use declaration_rules::Step;
use sqlite_items::Items;
use std::marker::Model;

/// A store of an initialiser: the path to the part of the object, and what is stored there.
#[derive(Drop)]
pub struct Store {
    path: Items<Step>,
    what: StoredPart,
}

impl Model for Store {
    ghost use Rattle.c_tree.specs.contracts.values.Place as place;
    ghost use Rattle.c_tree.specs.contracts.values.Value as value;
    ghost use Rattle.declaration_rules.specs.Stores.{Store as Whole};
    ghost use Rattle.initialiser_steps.specs.Seen.{stored_by};
    ghost use Rattle.std.specs.Coded.{codes};

    ghost Value = { Whole };

    ghost coded = { Prim.hlevel (codes, place.the_row.coded, value.the_row.coded) };

    ghost view = { λ s. record { path = s.path; what = stored_by s.what } };
}

impl Store {
    pub(crate) fn new(path: Items<Step>, what: StoredPart) -> Store
        ensures { result ≡ record { path = path; what = stored_by what } }
    {
        Store { path, what }
    }

    /// The path and what is stored at its end.
    pub(crate) fn into_parts(self) -> (Items<Step>, StoredPart)
        ensures path { result.0 ≡ self.path }
        ensures what { stored_by result.1 ≡ self.what }
    {
        let Store { path, what } = self;
        (path, what)
    }
}

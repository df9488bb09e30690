//! Names, and the last place of each.

ghost use Rattle.std.specs.Prelude.{◌≡◌, ◌<◌, ◌-◌, [], ◌∷◌, ◌++◌, Some, length, take, slice_get, OnOk, OnErr};
ghost use Rattle.scoped_names.specs.Names.{last_place};

use crate::places::{make_room, place_in, set_place};
use std::alloc::{AllocError, Global};
use std::marker::Model;

/// A declared name, with the place of the one that it hides.
#[derive(Clone, Copy)]
struct Declared {
    name: u32,
    hides: Option<usize>,
}

/// Names, each of them a number, that were declared one after another: contracts see their list. The table of places is as long
/// as the largest name asks. A look-up, a declaration and taking the last name back take constant time each.
#[derive(Drop)]
pub struct Names {
    places: Vec<Option<usize>>,
    declared: Vec<Declared>,
}

impl Model for Names {
    ghost use Rattle.std.specs.Prelude.{List, ℕ};

    ghost Value = { List ℕ };

    ghost use Rattle.scoped_names.specs.Scoping.{names_of, IsKept};

    ghost view = { λ s. names_of s.declared.items };

    ghost invariant = { λ s. IsKept s.places.items s.declared.items };
}

impl Names {
    pub fn new(alloc: Global) -> Names
        ensures { result ≡ [] }
    {
        Names {
            places: Vec::new(alloc),
            declared: Vec::new(alloc),
        }
    }

    /// How many names there are.
    pub fn len(&self) -> usize
        ensures { result ≡ length self.now }
    {
        self.declared.len()
    }

    /// The last place at which the name stands.
    pub fn find(&self, name: u32) -> Option<usize>
        ensures { result ≡ last_place self.now name }
    {
        place_in(self.places.as_slice(), name)
    }

    /// The name that was declared there.
    pub fn name(&self, place: usize) -> u32
        requires { place < length self.now }
        ensures { slice_get self.now place ≡ Some result }
    {
        self.declared[place].name
    }

    /// Declares a name after all others.
    pub fn declare(&mut self, name: u32) -> Result<(), AllocError>
        ensures ok { OnOk result (self.new ≡ self.old ++ name ∷ []) }
        ensures err { OnErr result (self.new ≡ self.old) }
    {
        let place = self.declared.len();
        let hides = place_in(self.places.as_slice(), name);
        self.declared.reserve(1)?;
        make_room(&mut self.places, name)?;
        set_place(&mut self.places, name, Some(place));
        let stored: Result<_, _> = self.declared.push(Declared { name, hides });
        stored.unwrap();
        Ok(())
    }

    /// Takes the last name back.
    fn end_last(&mut self)
        requires { 0 < length self.old }
        ensures { self.new ≡ take (length self.old - 1) self.old }
    {
        let Some(Declared { name, hides }) = self.declared.pop() else {
            return;
        };
        set_place(&mut self.places, name, hides);
    }

    /// Takes all names back but the first `start`.
    pub fn close(&mut self, start: usize)
        ensures { self.new ≡ take start self.old }
    {
        while self.len() > start {
            self.end_last();
        }
    }
}

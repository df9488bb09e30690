//! Names with their meanings.

ghost use Rattle.std.specs.Prelude.{
  ◌≡◌,
  ◌<◌,
  [],
  ◌∷◌,
  ◌++◌,
  length,
  take,
  drop,
  reverse,
  slice_get,
  Some,
  IfOk,
  OnOk,
  OnErr,
  OnSome,
  IfSome,
};
ghost use Rattle.std.specs.Option.{option_copied};
ghost use Rattle.scoped_meanings.specs.Meanings as spec;

use scoped_names::Names;
use sqlite_items::Items;
use std::alloc::{AllocError, Global};
use std::marker::Model;
use std::mem;

/// Names, each of them a number, with their meanings, in the order of their declarations: contracts see the list. A
/// look-up, a declaration and taking the last one back take constant time each, and a look-up is as fast for chosen names
/// as for others.
#[derive(Drop)]
pub struct Meanings<A> {
    names: Names,
    entries: Vec<(u32, A)>,
}

impl<A> Model for Meanings<A> {
    ghost use Rattle.std.specs.Prelude.{List, ℕ, ◌≡◌};

    ghost Value = { List (ℕ × A) };

    ghost use Rattle.scoped_meanings.specs.Meanings.{names_of};

    ghost view = { λ m. m.entries.items };

    ghost invariant = { λ m. m.names ≡ names_of m.entries.items };
}

/// What stands at a place.
fn entry_at<T>(entries: &[T], place: usize) -> Option<&T>
    ensures value { option_copied result ≡ slice_get entries.now place }
    ensures within { OnSome result (place < length entries.now) }
{
    entries.get(place)
}

/// The items in the other order.
fn reversed<T: Drop>(alloc: Global, mut items: Items<T>) -> Result<Items<T>, AllocError>
    ensures { IfOk result (λ other. other ≡ reverse items) }
{
    let mut other = Items::new(alloc);
    while let Some(item) = items.pop() {
        other.push(item)?;
    }
    Ok(other)
}

impl<A> Meanings<A> {
    /// No names, which take no memory.
    pub fn new(alloc: Global) -> Meanings<A>
        ensures { result ≡ [] }
    {
        Meanings {
            names: Names::new(alloc),
            entries: Vec::new(alloc),
        }
    }

    /// How many declarations there are.
    pub fn len(&self) -> usize
        ensures { result ≡ length self.now }
    {
        self.entries.len()
    }

    /// The last place at which a name was declared.
    pub fn find(&self, name: u32) -> Option<usize>
        ensures { result ≡ spec.place_of self.now name }
    {
        self.names.find(name)
    }

    /// What was declared at a place.
    pub fn get(&self, place: usize) -> Option<&A>
        ensures value { option_copied result ≡ spec.declared_at self.now place }
        ensures within { OnSome result (place < length self.now) }
    {
        match entry_at(self.entries.as_slice(), place) {
            Some(entry) => Some(&entry.1),
            None => None,
        }
    }

    /// The name that was declared at a place.
    pub fn name(&self, place: usize) -> u32
        requires { place < length self.now }
        ensures { IfSome (slice_get self.now place) (λ entry. entry.0 ≡ result) }
    {
        self.names.name(place)
    }

    /// What a name means.
    #[tactic(auto, unfolding(crate::specs::Meanings::meaning))]
    pub fn meaning(&self, name: u32) -> Option<&A>
        ensures { option_copied result ≡ spec.meaning self.now name }
    {
        match self.names.find(name) {
            Some(place) => self.get(place),
            None => None,
        }
    }

    /// What a name means by a declaration of the innermost scope, which `before` declarations stand before.
    #[tactic(auto, unfolding(crate::specs::Meanings::meaning_here))]
    pub fn meaning_here(&self, before: usize, name: u32) -> Option<&A>
        ensures { option_copied result ≡ spec.meaning_here before self.now name }
    {
        match self.names.find(name) {
            Some(place) => {
                if before <= place {
                    self.get(place)
                } else {
                    None
                }
            }
            None => None,
        }
    }
}

impl<A: Drop> Meanings<A> {
    /// Declares a name behind all others.
    pub fn declare(&mut self, name: u32, meaning: A) -> Result<(), AllocError>
        ensures ok { OnOk result (self.new ≡ self.old ++ (name, meaning) ∷ []) }
        ensures err { OnErr result (self.new ≡ self.old) }
    {
        self.names.declare(name)?;
        match self.entries.push((name, meaning)) {
            Ok(()) => Ok(()),
            Err(_) => {
                let start = self.entries.len();
                self.names.close(start);
                Err(AllocError)
            }
        }
    }

    /// Writes another meaning for what was declared at a place.
    pub fn set(&mut self, place: usize, meaning: A)
        requires { place < length self.old }
        ensures { self.new ≡ spec.put_at self.old place meaning }
    {
        let _ = self.replace(place, meaning);
    }

    /// Writes another meaning for what was declared at a place, and gives the one before.
    pub fn replace(&mut self, place: usize, meaning: A) -> A
        requires { place < length self.old }
        ensures before { spec.declared_at self.old place ≡ Some result }
        ensures after { self.new ≡ spec.put_at self.old place meaning }
    {
        let name = self.names.name(place);
        let (_, before) = mem::replace(&mut self.entries[place], (name, meaning));
        before
    }

    /// Takes all declarations back but the first `start`.
    pub fn close(&mut self, start: usize)
        ensures { self.new ≡ take start self.old }
    {
        self.entries.truncate(start);
        self.names.close(start);
    }

    /// Takes all declarations back but the first `start`, and gives them in their order.
    pub fn split_off(&mut self, start: usize) -> Result<Items<(u32, A)>, AllocError>
        ensures taken { IfOk result (λ taken. taken ≡ drop start self.old) }
        ensures rest { OnOk result (self.new ≡ take start self.old) }
        ensures err { OnErr result (self.new ≡ self.old) }
    {
        let start = start.min(self.entries.len());
        let taken = self.entries.split_off(start)?;
        self.names.close(start);
        Ok(Items::from_vec(taken))
    }

    /// Declares names behind all others in the order of the list, as one that was taken off. Where memory runs out only
    /// the first of them are declared.
    pub fn extend(&mut self, alloc: Global, entries: Items<(u32, A)>) -> Result<(), AllocError>
        ensures { OnOk result (self.new ≡ self.old ++ entries) }
    {
        let mut waiting = reversed(alloc, entries)?;
        while let Some((name, meaning)) = waiting.pop() {
            self.declare(name, meaning)?;
        }
        Ok(())
    }
}

//! The functions that a text defines, in the order of their definitions.

ghost use Rattle.std.specs.Prelude.{◌≡◌, ℕ, List, [], ◌∷◌, ◌++◌, length, OnOk, OnErr};
ghost use Rattle.declaration_rules.specs.Agreement.{number_from};
ghost use Rattle.object_rules.specs.Numbered.{AreNumbered};

use sqlite_items::Items;
use std::alloc::{AllocError, Global};
use std::collections::BTreeMap;
use std::marker::Model;

/// The names of the functions that a text defines, by number, in the order of their definitions: contracts see the list. A
/// look-up takes logarithmic time.
#[derive(Drop)]
pub struct DefinedNames {
    names: Vec<u32>,
    numbers: BTreeMap<u32, u32>,
}

impl Model for DefinedNames {
    ghost use Rattle.std.specs.Prelude.{List, ℕ};
    ghost use Rattle.object_rules.specs.Numbered.{AreNumbered};

    ghost Value = { List ℕ };

    ghost view = { λ d. d.names.items };

    ghost invariant = { λ d. AreNumbered d.numbers d.names.items };
}

/// Gives a name this number, unless it has one.
fn first_number(numbers: &mut BTreeMap<u32, u32>, name: u32, number: u32) -> Result<(), AllocError>
    ensures ok { (names : List ℕ) → length names ≡ number → AreNumbered numbers.old names → OnOk result (AreNumbered numbers.new (names ++ name ∷ [])) }
    ensures err { (names : List ℕ) → AreNumbered numbers.old names → OnErr result (AreNumbered numbers.new names) }
{
    match numbers.get(&name) {
        Some(_) => Ok(()),
        None => match numbers.insert(name, number) {
            Ok(_) => Ok(()),
            Err(_) => Err(AllocError),
        },
    }
}

impl DefinedNames {
    /// No functions, which take no memory.
    pub fn new(alloc: Global) -> DefinedNames
        ensures { result ≡ [] }
    {
        DefinedNames {
            names: Vec::new(alloc),
            numbers: BTreeMap::new(alloc),
        }
    }

    /// Adds a function behind the others.
    pub fn push(&mut self, name: u32) -> Result<(), AllocError>
        ensures { OnOk result (self.new ≡ self.old ++ name ∷ []) }
    {
        let Ok(number) = u32::try_from(self.names.len()) else {
            return Err(AllocError);
        };
        self.names.reserve(1)?;
        first_number(&mut self.numbers, name, number)?;
        let stored: Result<_, _> = self.names.push(name);
        stored.unwrap();
        Ok(())
    }

    /// The number of the function of a name: the place of its first definition.
    pub fn number_of(&self, name: u32) -> Option<u32>
        ensures { result ≡ number_from 0 self.now name }
    {
        self.numbers.get(&name).copied()
    }
}

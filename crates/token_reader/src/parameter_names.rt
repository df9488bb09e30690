//! Names that a list of parameters declares.

ghost use Rattle.std.specs.Prelude.{◌≡◌, ◌<◌, [], ◌∷◌, Some, length, reverse, slice_get, OnOk, OnErr};

use c_grammar::NameKind;
use std::alloc::{AllocError, Global};
use std::marker::Model;

/// A name, by its number, and what it is declared as.
#[derive(Clone, Copy, Debug)]
pub struct DeclaredName {
    pub name: u32,
    pub kind: NameKind,
}

/// The names that a list of parameters declares (C11 6.7.6.3): contracts see them with their kinds, the last one first.
#[derive(Debug, Drop)]
pub struct ParameterNames {
    declared: Vec<DeclaredName>,
}

impl Model for ParameterNames {
    ghost use Rattle.std.specs.Prelude.{List, reverse};
    ghost use Rattle.token_reader.specs.declared.parameter_names.DeclaredName.{DeclaredName as OneName};

    ghost Value = { List OneName };

    ghost view = { λ o. reverse o.declared.items };
}

impl ParameterNames {
    pub fn new(alloc: Global) -> ParameterNames
        ensures { result ≡ [] }
    {
        ParameterNames {
            declared: Vec::new(alloc),
        }
    }

    /// Adds a name that is declared after the others.
    pub fn add(&mut self, declared: DeclaredName) -> Result<(), AllocError>
        ensures ok { OnOk result (self.new ≡ declared ∷ self.old) }
        ensures err { OnErr result (self.new ≡ self.old) }
    {
        self.declared.push(declared)?;
        Ok(())
    }

    /// How many there are.
    pub fn len(&self) -> usize
        ensures { result ≡ length self.now }
    {
        self.declared.len()
    }

    /// The name that is declared there, the first one first.
    pub fn declaration(&self, at: usize) -> DeclaredName
        requires { at < length self.now }
        ensures { slice_get (reverse self.now) at ≡ Some result }
    {
        self.declared[at]
    }
}

//! The names in scope, and which of them are types.

ghost use Rattle.std.specs.Prelude.{◌≡◌, ℕ, ◌-◌, [], ◌∷◌, ◌++◌, length, take, drop, reverse, Some, IfOk, OnOk, OnErr};
ghost use Rattle.token_reader.specs.Scoping.{declares_at, is_type_in, start_numbers, types_of};

use crate::parameter_names::{DeclaredName, ParameterNames};
use c_grammar::NameKind;
use scoped_names::Names;
use std::alloc::{AllocError, Global};
use std::marker::Model;

/// The names in scope, by their numbers: contracts see them with their kinds, the last declared first.
#[derive(Drop)]
pub struct Scope {
    names: Names,
    kinds: Vec<NameKind>,
}

impl Model for Scope {
    ghost use Rattle.std.specs.Prelude.{◌≡◌, length, List};
    ghost use Rattle.token_reader.specs.declared.parameter_names.DeclaredName.{DeclaredName as OneName};
    ghost use Rattle.token_reader.specs.Scoping.{scope_of};

    ghost Value = { List OneName };

    ghost view = { λ s. scope_of s.names s.kinds.items };

    ghost invariant = { λ s. length s.kinds.items ≡ length s.names };
}

/// Whether what was declared there is a type.
fn declares_type(kinds: &[NameKind], place: usize) -> bool
    ensures { result ≡ declares_at kinds.now (Some place) }
{
    match kinds.get(place) {
        Some(NameKind::Type) => true,
        Some(NameKind::Ordinary) | None => false,
    }
}

impl Scope {
    pub fn new(alloc: Global) -> Scope
        ensures { result ≡ [] }
    {
        Scope {
            names: Names::new(alloc),
            kinds: Vec::new(alloc),
        }
    }

    /// The names of types that stand in every text (C11 7.19 and 7.20.1.1), and these.
    pub fn with_typedefs(alloc: Global, typedefs: &[u32]) -> Result<Scope, AllocError>
        ensures { IfOk result (λ scope. scope ≡ types_of (typedefs.now ++ start_numbers)) }
    {
        let mut scope = Scope::new(alloc);
        scope.declare(9, NameKind::Type)?;
        scope.declare(8, NameKind::Type)?;
        scope.declare(7, NameKind::Type)?;
        scope.declare(6, NameKind::Type)?;
        scope.declare(5, NameKind::Type)?;
        scope.declare(4, NameKind::Type)?;
        scope.declare(3, NameKind::Type)?;
        scope.declare(2, NameKind::Type)?;
        scope.declare(1, NameKind::Type)?;
        scope.declare(0, NameKind::Type)?;
        for i in (0..typedefs.len()).rev() {
            scope.declare(typedefs[i], NameKind::Type)?;
        }
        Ok(scope)
    }

    /// How many names are in scope.
    pub fn len(&self) -> usize
        ensures { result ≡ length self.now }
    {
        self.kinds.len()
    }

    /// Whether the last declaration of the name declares a type.
    pub fn is_type(&self, name: u32) -> bool
        ensures { result ≡ is_type_in self.now name }
    {
        match self.names.find(name) {
            Some(place) => declares_type(self.kinds.as_slice(), place),
            None => false,
        }
    }

    /// Declares a name after all others.
    pub fn declare(&mut self, name: u32, kind: NameKind) -> Result<(), AllocError>
        ensures ok { OnOk result (self.new ≡ record { name = name; kind = kind } ∷ self.old) }
        ensures err { OnErr result (self.new ≡ self.old) }
    {
        self.kinds.reserve(1)?;
        self.names.declare(name)?;
        let stored: Result<_, _> = self.kinds.push(kind);
        stored.unwrap();
        Ok(())
    }

    /// Ends the scope of all names but the first `count`, counted from the outermost.
    pub fn close(&mut self, count: usize)
        ensures { self.new ≡ drop (length self.old - count) self.old }
    {
        self.names.close(count);
        self.kinds.truncate(count);
    }

    /// The names after the first `count`, counted from the outermost.
    pub fn since(&self, alloc: Global, count: usize) -> Result<ParameterNames, AllocError>
        ensures { IfOk result (λ own. own ≡ take (length self.now - count) self.now) }
    {
        let mut own = ParameterNames::new(alloc);
        for place in count..self.kinds.len() {
            own.add(DeclaredName {
                name: self.names.name(place),
                kind: self.kinds[place],
            })?;
        }
        Ok(own)
    }

    /// Declares all of them again.
    pub fn declare_all(&mut self, own: &ParameterNames) -> Result<(), AllocError>
        ensures ok { OnOk result (self.new ≡ own.now ++ self.old) }
        // Where memory runs out, so many of them are declared.
        ensures some { (n : ℕ) × (self.new ≡ reverse (take n (reverse own.now)) ++ self.old) }
    {
        for i in 0..own.len() {
            let declared = own.declaration(i);
            self.declare(declared.name, declared.kind)?;
        }
        Ok(())
    }
}

//! The parts of a program, which contracts see as lists.

ghost use Rattle.std.specs.Prelude.{◌≡◌, ◌<◌, [], ◌∷◌, ◌++◌, length, slice_get, OnOk, OnErr, OnSome, IfSome};
ghost use Rattle.std.specs.Option.{option_copied};
ghost use Rattle.c_tree.specs.Counts.{fits};

use crate::counts::{TOO_LARGE, size_of};
use crate::program::{Function, GlobalVariable, Literal, Named};
use sqlite_items::Items;
use std::alloc::{AllocError, Global};
use std::marker::Model;

/// The functions that are defined, in order of definition. A function's number is its place, counted from 0.
#[derive(Drop)]
pub struct Functions {
    functions: Items<Function>,
}

impl Model for Functions {
    ghost use Rattle.std.specs.Prelude.{List};
    ghost use Rattle.c_tree.specs.declared.program.Function.{Function};
    ghost use Rattle.c_tree.specs.contracts.statements.Statement as statement;
    ghost use Rattle.std.specs.Coded.{codes};

    ghost Value = { List Function };

    ghost coded = { Prim.hlevel (codes, statement.the_row.coded) };

    ghost view = { λ list. list.functions };
}

impl Functions {
    /// The empty list, which takes no memory.
    pub fn new(alloc: Global) -> Functions
        ensures { result ≡ [] }
    {
        Functions {
            functions: Items::new(alloc),
        }
    }

    /// The list of a `Vec`, which takes no memory.
    pub fn from_vec(functions: Vec<Function>) -> Functions
        ensures { result ≡ functions.items }
    {
        Functions {
            functions: Items::from_vec(functions),
        }
    }

    /// Adds a function at the end.
    pub fn push(&mut self, function: Function) -> Result<(), AllocError>
        ensures ok { OnOk result (self.new ≡ self.old ++ function ∷ []) }
        ensures err { OnErr result (self.new ≡ self.old) }
    {
        self.functions.push(function)?;
        Ok(())
    }

    /// The function at a place, counted from 0.
    pub fn get(&self, at: usize) -> Option<&Function>
        ensures value { option_copied result ≡ slice_get self.now at }
        ensures within { OnSome result (at < length self.now) }
    {
        self.functions.get(at)
    }

    pub fn len(&self) -> usize
        ensures { result ≡ length self.now }
    {
        self.functions.len()
    }

    pub fn as_slice(&self) -> &[Function]
        ensures { result.now ≡ self.now }
    {
        self.functions.as_slice()
    }

    /// Whether a function has at most 65,535 expression nodes and variables, so that it can be lowered. Conversions
    /// that no text writes are not counted.
    pub fn fits_lower(&self, function: u32) -> bool
        requires { function < length self.now }
        ensures { IfSome (slice_get self.now function) (λ one. result ≡ fits one) }
    {
        let functions = self.functions.as_slice();
        size_of(&functions[function as usize]) < TOO_LARGE
    }
}

/// The globals in order of definition.
#[derive(Drop)]
pub struct Globals {
    globals: Items<GlobalVariable>,
}

impl Model for Globals {
    ghost use Rattle.std.specs.Prelude.{List};
    ghost use Rattle.c_tree.specs.declared.program.GlobalVariable.{GlobalVariable};
    ghost use Rattle.c_tree.specs.contracts.values.Place as place;
    ghost use Rattle.c_tree.specs.contracts.values.Value as value;
    ghost use Rattle.std.specs.Coded.{codes};

    ghost Value = { List GlobalVariable };

    ghost coded = { Prim.hlevel (codes, place.the_row.coded, value.the_row.coded) };

    ghost view = { λ list. list.globals };
}

impl Globals {
    /// The empty list, which takes no memory.
    pub fn new(alloc: Global) -> Globals
        ensures { result ≡ [] }
    {
        Globals {
            globals: Items::new(alloc),
        }
    }

    /// The list of a `Vec`, which takes no memory.
    pub fn from_vec(globals: Vec<GlobalVariable>) -> Globals
        ensures { result ≡ globals.items }
    {
        Globals {
            globals: Items::from_vec(globals),
        }
    }

    /// Adds a global at the end.
    pub fn push(&mut self, global: GlobalVariable) -> Result<(), AllocError>
        ensures ok { OnOk result (self.new ≡ self.old ++ global ∷ []) }
        ensures err { OnErr result (self.new ≡ self.old) }
    {
        self.globals.push(global)?;
        Ok(())
    }

    /// The global at a place, counted from 0.
    pub fn get(&self, at: usize) -> Option<&GlobalVariable>
        ensures value { option_copied result ≡ slice_get self.now at }
        ensures within { OnSome result (at < length self.now) }
    {
        self.globals.get(at)
    }

    pub fn len(&self) -> usize
        ensures { result ≡ length self.now }
    {
        self.globals.len()
    }

    pub fn as_slice(&self) -> &[GlobalVariable]
        ensures { result.now ≡ self.now }
    {
        self.globals.as_slice()
    }
}

/// The string literals that make objects, in the order of the text. A literal's number is its place, counted from 0.
#[derive(Drop)]
pub struct Literals {
    literals: Items<Literal>,
}

impl Model for Literals {
    ghost use Rattle.std.specs.Prelude.{List};
    ghost use Rattle.c_tree.specs.declared.program.Literal.{Literal};

    ghost Value = { List Literal };

    ghost view = { λ list. list.literals };
}

impl Literals {
    /// The empty list, which takes no memory.
    pub fn new(alloc: Global) -> Literals
        ensures { result ≡ [] }
    {
        Literals {
            literals: Items::new(alloc),
        }
    }

    /// The list of a `Vec`, which takes no memory.
    pub fn from_vec(literals: Vec<Literal>) -> Literals
        ensures { result ≡ literals.items }
    {
        Literals {
            literals: Items::from_vec(literals),
        }
    }

    /// Adds a literal at the end.
    pub fn push(&mut self, literal: Literal) -> Result<(), AllocError>
        ensures ok { OnOk result (self.new ≡ self.old ++ literal ∷ []) }
        ensures err { OnErr result (self.new ≡ self.old) }
    {
        self.literals.push(literal)?;
        Ok(())
    }

    /// The literal at a place, counted from 0.
    pub fn get(&self, at: usize) -> Option<&Literal>
        ensures value { option_copied result ≡ slice_get self.now at }
        ensures within { OnSome result (at < length self.now) }
    {
        self.literals.get(at)
    }

    pub fn len(&self) -> usize
        ensures { result ≡ length self.now }
    {
        self.literals.len()
    }

    pub fn as_slice(&self) -> &[Literal]
        ensures { result.now ≡ self.now }
    {
        self.literals.as_slice()
    }
}

/// The typedefs, tags and enumeration constants of file scope, in the order of their declarations.
#[derive(Drop)]
pub struct Names {
    names: Items<Named>,
}

impl Model for Names {
    ghost use Rattle.std.specs.Prelude.{List};
    ghost use Rattle.c_tree.specs.declared.program.Named.{Named};

    ghost Value = { List Named };

    ghost view = { λ list. list.names };
}

impl Names {
    /// The empty list, which takes no memory.
    pub fn new(alloc: Global) -> Names
        ensures { result ≡ [] }
    {
        Names {
            names: Items::new(alloc),
        }
    }

    /// The list of a `Vec`, which takes no memory.
    pub fn from_vec(names: Vec<Named>) -> Names
        ensures { result ≡ names.items }
    {
        Names {
            names: Items::from_vec(names),
        }
    }

    /// Adds a name at the end.
    pub fn push(&mut self, name: Named) -> Result<(), AllocError>
        ensures ok { OnOk result (self.new ≡ self.old ++ name ∷ []) }
        ensures err { OnErr result (self.new ≡ self.old) }
    {
        self.names.push(name)?;
        Ok(())
    }

    /// The name at a place, counted from 0.
    pub fn get(&self, at: usize) -> Option<&Named>
        ensures value { option_copied result ≡ slice_get self.now at }
        ensures within { OnSome result (at < length self.now) }
    {
        self.names.get(at)
    }

    pub fn len(&self) -> usize
        ensures { result ≡ length self.now }
    {
        self.names.len()
    }

    pub fn as_slice(&self) -> &[Named]
        ensures { result.now ≡ self.now }
    {
        self.names.as_slice()
    }
}

//! The members of one list (C11 6.7.2.1), which are found by their names.

ghost use Rattle.std.specs.Prelude.{◌≡◌, [], ◌∷◌, ◌++◌, IfOk, OnOk};
ghost use Rattle.c_types.specs.Adding as adding;

use c_types::{Field, Text, TypeNo};
use std::alloc::{AllocError, Global};
use std::collections::BTreeSet;
use std::marker::Model;

/// Members in the order of their declarations: contracts see the list. A look-up takes logarithmic time, whatever the names
/// are.
#[derive(Drop)]
pub struct Fields {
    fields: Vec<Field>,
    names: BTreeSet<Vec<u8>>,
}

impl Model for Fields {
    ghost use Rattle.std.specs.Prelude.{List};
    ghost use Rattle.c_types.specs.declared.kinds.Field.{Field};
    ghost use Rattle.declarator_rules.specs.Names.{HasNames};

    ghost Value = { List Field };

    ghost view = { λ f. f.fields.items };

    ghost invariant = { λ f. HasNames f.names f.fields.items };
}

/// A text of these bytes.
fn text_of(alloc: Global, bytes: &[u8]) -> Result<Text, AllocError>
    ensures { IfOk result (λ text. text ≡ bytes.now) }
{
    let mut text = Text::new(alloc);
    text.append(bytes)?;
    Ok(text)
}

impl Fields {
    /// No members, which take no memory.
    pub fn new(alloc: Global) -> Fields
        ensures { result ≡ [] }
    {
        Fields {
            fields: Vec::new(alloc),
            names: BTreeSet::new(alloc),
        }
    }

    pub fn as_slice(&self) -> &[Field]
        ensures { result.now ≡ self.now }
    {
        self.fields.as_slice()
    }

    /// Whether a member has this name.
    pub fn has(&self, spelling: &[u8]) -> bool
        ensures { result ≡ adding.is_named spelling.now self.now }
    {
        self.names.contains(spelling)
    }

    /// Adds a member behind the others.
    pub fn push(&mut self, alloc: Global, spelling: &[u8], kind: TypeNo) -> Result<(), AllocError>
        ensures { OnOk result (self.new ≡ self.old ++ record { name = spelling.now; kind = kind } ∷ []) }
    {
        let name = text_of(alloc, spelling)?;
        let key = Vec::from_slice(alloc, spelling)?;
        self.fields.reserve(1)?;
        self.names.insert(key)?;
        let stored: Result<_, _> = self.fields.push(Field { name, kind });
        stored.unwrap();
        Ok(())
    }
}

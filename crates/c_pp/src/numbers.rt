//! The names of a text, numbered.

ghost use Rattle.std.specs.Prelude.{◌≡◌, IfOk};
ghost use Rattle.c_pp.specs.Numbering.{Finds};
ghost use Rattle.c_pp.specs.Walks.{Numbers};

use c_tokens::{Token, is_name, spelling};
use std::alloc::{AllocError, Global};
use std::collections::BTreeMap;

/// The number of the name that each token is, which equal names share, and how many numbers there are.
#[derive(Drop)]
pub struct Numbered {
    pub numbers: Vec<Option<usize>>,
    pub count: usize,
}

/// The number of a name, which is the next one where the name is new.
fn number_of(known: &mut BTreeMap<Vec<u8>, usize>, name: Vec<u8>) -> Result<usize, AllocError>
    ensures { IfOk result (λ number. Finds known.old known.new name.items number) }
{
    match known.get(name.as_slice()).copied() {
        Some(number) => Ok(number),
        None => {
            let number = known.len();
            known.insert(name, number)?;
            Ok(number)
        }
    }
}

/// Numbers the names of a text. An ordered map keeps it fast whatever the names are.
pub fn number_names(alloc: Global, text: &[u8], tokens: &[Token]) -> Result<Numbered, AllocError>
    ensures { IfOk result (λ found. Numbers text.now tokens.now found) }
{
    let mut numbers = Vec::with_capacity(alloc, tokens.len())?;
    let mut known: BTreeMap<Vec<u8>, usize> = BTreeMap::new(alloc);
    for token in tokens {
        if !is_name(token.kind) {
            numbers.push(None)?;
            continue;
        }
        let name = spelling(alloc, text, token)?;
        let number = number_of(&mut known, name)?;
        numbers.push(Some(number))?;
    }
    Ok(Numbered {
        numbers,
        count: known.len(),
    })
}

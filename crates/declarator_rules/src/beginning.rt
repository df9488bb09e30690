//! The state before a text: the nine types, and the names that each text has (C11 7.17 to 7.24).

ghost use Rattle.std.specs.Prelude.{◌≡◌, IfOk, MatchResult};
ghost use Rattle.declaration_rules.specs.Units as spec;
ghost use Rattle.rule_answers.specs.Faults.{want_of_memory};
ghost use Rattle.static_rules.specs.Predefined as predefined;
ghost use Rattle.static_rules.specs.Source.{Source};

use crate::names::predefined;
use c_tree::Literals;
use c_types::TypeTable;
use rule_answers::out_of_memory;
use scoped_meanings::Meanings;
use sqlite_items::Items;
use static_rules::{CheckError, State, Symbol};
use std::alloc::{AllocError, Global};
use token_texts::TokenTexts;

/// The predefined ones of the names of a text.
pub fn predefined_names(alloc: Global, texts: &TokenTexts) -> Result<Meanings<Symbol>, AllocError>
    ensures { IfOk result (λ names. names ≡ predefined.predefined_from 0 texts.now.names) }
{
    let mut names = Meanings::new(alloc);
    for place in 0..texts.names_len() {
        let Ok(number) = u32::try_from(place) else {
            return Err(AllocError);
        };
        if let Some(symbol) = predefined(texts.name(number)) {
            names.declare(number, symbol)?;
        }
    }
    Ok(names)
}

/// The state before the first declaration of a text.
#[tactic(auto, unfolding(static_rules::specs::Predefined::predefined_of))]
pub fn start(alloc: Global, texts: &TokenTexts) -> Result<State, CheckError>
    ensures { (source : Source) → source.texts ≡ texts.now → MatchResult result (λ s. s ≡ spec.start source) (λ e. e ≡ want_of_memory) }
{
    let Ok(types) = TypeTable::new(alloc) else {
        return Err(out_of_memory());
    };
    let Ok(symbols) = predefined_names(alloc, texts) else {
        return Err(out_of_memory());
    };
    Ok(State {
        types,
        symbols,
        tags: Meanings::new(alloc),
        functions: Meanings::new(alloc),
        globals: Meanings::new(alloc),
        defined: 0,
        variables: Items::new(alloc),
        block: Items::new(alloc),
        open_element: 0,
        literals: Literals::new(alloc),
        bytes: 0,
    })
}

//! The texts of tokens are gathered.

ghost use Rattle.std.specs.Prelude.{◌≡◌, ◌≤◌, Some, List, length, map, slice_get, IfOk};
ghost use Rattle.c_tokens.specs.Limits.{max_source_bytes, max_tokens};
ghost use Rattle.c_tokens.specs.Names.{Name};
ghost use Rattle.token_texts.specs.Strings.{HaveStrings};
ghost use Rattle.token_texts.specs.Texts.{AreTexts, AreTextsWith, AreTextsFrom, distinct};

use crate::numbering::Numbering;
use crate::table::{Table, predefined_names};
use crate::texts::TokenTexts;
use byte_texts::Text;
use c_tokens::Token;
use std::alloc::{AllocError, Global};

/// The texts of the tokens of the name of a type, and the numbers of the names of types that are given, in their order.
#[derive(Debug, Drop)]
pub struct TypeNameTexts {
    pub texts: TokenTexts,
    pub typedefs: Vec<u32>,
}

/// The texts of tokens, where these names come first.
fn gather(
    alloc: Global,
    text: &[u8],
    tokens: &[Token],
    names: Table,
) -> Result<TokenTexts, AllocError>
    requires small { length text.now ≤ max_source_bytes }
    requires few { length tokens.now ≤ max_tokens }
    requires strings { HaveStrings text.now tokens.now }
    ensures { (given : List Name) → names ≡ distinct given → IfOk result (λ texts. AreTextsFrom given text.now tokens.now texts) }
{
    let mut numbering = Numbering::new(alloc, names, text.len())?;
    for _token in tokens {
        numbering.add_next(alloc, text, tokens)?;
    }
    Ok(numbering.into_texts())
}

/// The names and the strings of the tokens of a text, and their numbers. The first names are the predefined ones of types.
///
/// Time and memory grow with the text and with the tokens, not with how long the names are that macros repeat.
pub fn token_texts(alloc: Global, text: &[u8], tokens: &[Token]) -> Result<TokenTexts, AllocError>
    requires small { length text.now ≤ max_source_bytes }
    requires few { length tokens.now ≤ max_tokens }
    requires strings { HaveStrings text.now tokens.now }
    ensures { IfOk result (λ texts. AreTexts text.now tokens.now texts) }
{
    let names = predefined_names(alloc)?;
    let texts = gather(alloc, text, tokens, names)?;
    Ok(texts)
}

/// The same of the tokens of the name of a type, where these names are types too.
pub fn texts_with_typedefs(
    alloc: Global,
    text: &[u8],
    tokens: &[Token],
    typedefs: &[Text],
) -> Result<TypeNameTexts, AllocError>
    requires small { length text.now ≤ max_source_bytes }
    requires few { length tokens.now ≤ max_tokens }
    requires strings { HaveStrings text.now tokens.now }
    ensures texts { IfOk result (λ found. AreTextsWith typedefs.now text.now tokens.now found.texts) }
    ensures typedefs { IfOk result (λ found. map (slice_get found.texts.names) found.typedefs.items ≡ map (λ name. Some name) typedefs.now) }
{
    let mut names = predefined_names(alloc)?;
    let typedefs = names.numbers_of(alloc, typedefs)?;
    let texts = gather(alloc, text, tokens, names)?;
    Ok(TypeNameTexts { texts, typedefs })
}

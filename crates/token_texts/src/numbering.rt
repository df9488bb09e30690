//! Tokens are numbered one after another.

ghost use Rattle.std.specs.Prelude.{◌≡◌, ◌+◌, ◌<◌, ◌≤◌, [], List, length, take, slice_get, true, IfOk, IfSome, OnOk};
ghost use Rattle.c_tokens.specs.Limits.{max_source_bytes, max_tokens};
ghost use Rattle.c_tokens.specs.Names.{Name};
ghost use Rattle.token_texts.specs.Strings.{HaveStrings, MeansBytes};
ghost use Rattle.token_texts.specs.Texts.{AreTextsFrom};
ghost use Rattle.token_texts.specs.Gains.{IsSame, IsKnown, Gains};

use crate::table::Table;
use crate::texts::TokenTexts;
use c_lexer::text_bytes;
use c_tokens::{Kind, Token, law_kinds, same_kind, spelling};
use std::alloc::{AllocError, Global};
use std::marker::Model;

/// Stands for the number of a token where there is none.
const NO_TOKEN: u32 = u32::MAX;

/// The names, strings and numbers of the tokens so far.
#[derive(Drop)]
pub struct Numbering {
    names: Table,
    strings: Table,
    numbers: Vec<u32>,
    /// The last token that begins at each place of the text, so that what macros repeat is spelled once.
    last_at: Vec<u32>,
}

impl Model for Numbering {
    ghost use Rattle.token_texts.specs.Texts.{Texts};

    ghost Value = { Texts };

    ghost view = { λ n. record { names = n.names; strings = n.strings; numbers = n.numbers.items } };
}

/// The number there.
fn number_at(numbers: &[u32], at: usize) -> Option<u32>
    ensures { result ≡ slice_get numbers.now at }
{
    numbers.get(at).copied()
}

/// The token there.
fn token_at(tokens: &[Token], at: usize) -> Option<Token>
    ensures { result ≡ slice_get tokens.now at }
{
    tokens.get(at).copied()
}

/// Whether both are of one kind and have the same bytes of the text.
fn is_same(a: Token, b: Token) -> bool
    ensures { result ≡ true → IsSame a b }
{
    law_kinds();
    a.start == b.start && a.end == b.end && same_kind(a.kind, b.kind)
}

/// The number of a token that has the same bytes of the text, where one is remembered.
fn known(last_at: &[u32], tokens: &[Token], numbers: &[u32], token: Token) -> Option<u32>
    ensures { IfSome result (λ number. IsKnown tokens.now numbers.now token number) }
{
    let at = number_at(last_at, token.start as usize)? as usize;
    let other = token_at(tokens, at)?;
    let number = number_at(numbers, at)?;
    if is_same(other, token) {
        Some(number)
    } else {
        None
    }
}

/// Remembers the token that begins there.
fn remember(last_at: &mut [u32], start: usize, at: u32) {
    if let Some(last) = last_at.get_mut(start) {
        *last = at;
    }
}

/// The number of a token that is none of those before.
fn new_number(
    alloc: Global,
    text: &[u8],
    token: &Token,
    names: &mut Table,
    strings: &mut Table,
) -> Result<u32, AllocError>
    requires small { length text.now ≤ max_source_bytes }
    requires means { MeansBytes text.now token.now }
    ensures { IfOk result (λ number. Gains text.now token.now names.old strings.old names.new strings.new number) }
{
    match token.kind {
        Kind::Name => {
            let name = spelling(alloc, text, token)?;
            let number = names.number_of(alloc, name.as_slice())?;
            Ok(number)
        }
        Kind::Str => {
            let bytes = text_bytes(alloc, text, token)?;
            let number = strings.number_of(alloc, bytes.as_slice())?;
            Ok(number)
        }
        _ => Ok(0),
    }
}

impl Numbering {
    /// Before the first token of a text of so many bytes, with names that have numbers already.
    pub fn new(alloc: Global, names: Table, text_len: usize) -> Result<Numbering, AllocError>
        ensures { IfOk result (λ numbering. (numbering.names ≡ names) × (numbering.strings ≡ []) × (numbering.numbers ≡ [])) }
    {
        let last_at = vec![in alloc; NO_TOKEN; text_len]?;
        Ok(Numbering {
            names,
            strings: Table::new(alloc),
            numbers: Vec::new(alloc),
            last_at,
        })
    }

    /// The number of the token that stands next.
    fn next_number(
        &mut self,
        alloc: Global,
        text: &[u8],
        tokens: &[Token],
        token: Token,
    ) -> Result<u32, AllocError>
        requires small { length text.now ≤ max_source_bytes }
        requires means { MeansBytes text.now token }
        ensures gains { (given : List Name) → AreTextsFrom given text.now (take (length self.old.numbers) tokens.now) self.old → IfOk result (λ number. Gains text.now token self.old.names self.old.strings self.new.names self.new.strings number) }
        ensures kept { self.new.numbers ≡ self.old.numbers }
    {
        match known(
            self.last_at.as_slice(),
            tokens,
            self.numbers.as_slice(),
            token,
        ) {
            Some(number) => Ok(number),
            None => {
                let number = new_number(alloc, text, &token, &mut self.names, &mut self.strings)?;
                Ok(number)
            }
        }
    }

    /// Numbers the next of the tokens.
    pub fn add_next(
        &mut self,
        alloc: Global,
        text: &[u8],
        tokens: &[Token],
    ) -> Result<(), AllocError>
        requires small { length text.now ≤ max_source_bytes }
        requires few { length tokens.now ≤ max_tokens }
        requires strings { HaveStrings text.now tokens.now }
        requires next { length self.old.numbers < length tokens.now }
        ensures texts { (given : List Name) → AreTextsFrom given text.now (take (length self.old.numbers) tokens.now) self.old → OnOk result (AreTextsFrom given text.now (take (length self.old.numbers + 1) tokens.now) self.new) }
        ensures one { OnOk result (length self.new.numbers ≡ length self.old.numbers + 1) }
    {
        let at = self.numbers.len();
        let token = tokens[at];
        let number = self.next_number(alloc, text, tokens, token)?;
        self.numbers.push(number)?;
        remember(self.last_at.as_mut_slice(), token.start as usize, at as u32);
        Ok(())
    }

    /// What was gathered.
    pub fn into_texts(self) -> TokenTexts
        ensures { result ≡ self }
    {
        let Numbering {
            names,
            strings,
            numbers,
            last_at: _,
        } = self;
        TokenTexts::new(names.into_list(), strings.into_list(), numbers)
    }
}

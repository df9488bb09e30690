//! What the nodes of a tree say by numbers: names, strings, and the number of each token.

ghost use Rattle.std.specs.Prelude.{◌≡◌, length};

use byte_texts::Text;
use std::marker::Model;

/// The names and the strings of a text, each once, and the number that each token has among them: of a name among the
/// names, of a string literal among the strings, of another token 0. Numbers count from 0.
#[derive(Debug, Drop)]
pub struct TokenTexts {
    names: Vec<Text>,
    strings: Vec<Text>,
    numbers: Vec<u32>,
}

impl Model for TokenTexts {
    ghost use Rattle.token_texts.specs.Texts.{Texts};

    ghost Value = { Texts };

    ghost view = { λ t. record { names = t.names.items; strings = t.strings.items; numbers = t.numbers.items } };
}

impl TokenTexts {
    ghost use Rattle.token_texts.specs.Texts as spec;

    pub(crate) fn new(names: Vec<Text>, strings: Vec<Text>, numbers: Vec<u32>) -> TokenTexts
        ensures { result ≡ record { names = names.items; strings = strings.items; numbers = numbers.items } }
    {
        TokenTexts {
            names,
            strings,
            numbers,
        }
    }

    /// The number of a token, which is 0 past the last one.
    pub fn number(&self, token: u32) -> u32
        ensures { result ≡ spec.number_at self.now token }
    {
        match self.numbers.get(token as usize) {
            Some(number) => *number,
            None => 0,
        }
    }

    /// The name of a number, which is empty where there is none.
    pub fn name(&self, number: u32) -> &[u8]
        ensures { result.now ≡ spec.name_of self.now number }
    {
        match self.names.get(number as usize) {
            Some(name) => name.bytes(),
            None => &[],
        }
    }

    /// The string of a number, which is empty where there is none.
    pub fn string(&self, number: u32) -> &[u8]
        ensures { result.now ≡ spec.string_of self.now number }
    {
        match self.strings.get(number as usize) {
            Some(string) => string.bytes(),
            None => &[],
        }
    }

    /// How many names there are.
    pub fn names_len(&self) -> usize
        ensures { result ≡ length self.now.names }
    {
        self.names.len()
    }

    /// How many strings there are.
    pub fn strings_len(&self) -> usize
        ensures { result ≡ length self.now.strings }
    {
        self.strings.len()
    }
}

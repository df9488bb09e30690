//! The text that a tree is shown as: words and brackets, with one space between two parts.

use c_grammar::Place;
use std::alloc::{AllocError, Global};
use token_texts::TokenTexts;

/// A text that grows, and whether memory ran out meanwhile.
#[derive(Drop)]
pub struct Sketch<'a> {
    text: String,
    /// What the tree's names are.
    texts: &'a TokenTexts,
    shows_places: bool,
    /// Whether a space comes before what is written next.
    is_after_part: bool,
    is_cut: bool,
}

impl<'a> Sketch<'a> {
    pub fn new(alloc: Global, texts: &'a TokenTexts, shows_places: bool) -> Sketch<'a> {
        Sketch {
            text: String::new(alloc),
            texts,
            shows_places,
            is_after_part: false,
            is_cut: false,
        }
    }

    /// The text, if it is whole.
    pub fn finish(self) -> Result<String, AllocError> {
        let Sketch {
            text,
            texts: _,
            shows_places: _,
            is_after_part: _,
            is_cut,
        } = self;
        if is_cut { Err(AllocError) } else { Ok(text) }
    }

    fn put(&mut self, piece: &str) {
        if self.text.push_str(piece).is_err() {
            self.is_cut = true;
        }
    }

    fn begin_part(&mut self) {
        if self.is_after_part {
            self.put(" ");
        }
        self.is_after_part = true;
    }

    pub fn word(&mut self, word: &str) {
        self.begin_part();
        self.put(word);
    }

    pub fn number(&mut self, value: u64, suffix: &str) {
        self.begin_part();
        if write!(self.text, "{value}{suffix}").is_err() {
            self.is_cut = true;
        }
    }

    pub fn character(&mut self, value: i32) {
        self.begin_part();
        if write!(self.text, "'{value}'").is_err() {
            self.is_cut = true;
        }
    }

    /// String literals in a row, as how many they are.
    pub fn strings(&mut self, count: u32) {
        self.begin_part();
        if write!(self.text, "\"{count}\"").is_err() {
            self.is_cut = true;
        }
    }

    /// The name that a token is.
    pub fn name(&mut self, token: u32) {
        self.begin_part();
        let texts = self.texts;
        for byte in texts.name(texts.number(token)) {
            if self.text.push(char::from(*byte)).is_err() {
                self.is_cut = true;
            }
        }
    }

    /// The same, or `-` where there is none.
    pub fn optional_name(&mut self, token: Option<u32>) {
        match token {
            Some(token) => self.name(token),
            None => self.word("-"),
        }
    }

    /// Opens a bracket: what comes next stands directly after it.
    pub fn open(&mut self, bracket: &str) {
        self.word(bracket);
        self.is_after_part = false;
    }

    pub fn close(&mut self, bracket: &str) {
        self.put(bracket);
        self.is_after_part = true;
    }

    /// The number and the line of a node's first token, before the node, where places are asked for.
    pub fn place(&mut self, place: Place) {
        if !self.shows_places {
            return;
        }
        self.begin_part();
        if write!(self.text, "@{}:{}", place.token, place.line).is_err() {
            self.is_cut = true;
        }
    }

    /// A node that is one word.
    pub fn leaf(&mut self, place: Place, word: &str) {
        self.place(place);
        self.word(word);
    }

    /// Opens a node, whose parts come next.
    pub fn node(&mut self, place: Place, head: &str) {
        self.place(place);
        self.open("(");
        self.word(head);
    }
}

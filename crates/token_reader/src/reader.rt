//! Where the parser stands among the tokens of a text, and what is in scope there.

ghost use Rattle.std.specs.Prelude.{◌≡◌, ◌+◌, ◌-◌, ◌<◌, ◌≤◌, ◌++◌, true, false, Some, take, drop, map, All, length, IfOk, OnOk, OnErr, OnSome};
ghost use Rattle.c_tokens.specs.Limits.{max_tokens};
ghost use Rattle.c_tokens.specs.declared.kind.Kind.TheVariants as kind;
ghost use Rattle.token_texts.specs.Names.{name_at};
ghost use Rattle.token_texts.specs.Texts.{AreTextsWith, name_of, number_at};
ghost use Rattle.c_grammar.specs.Scope.{start, types as type_names};
ghost use Rattle.c_grammar.specs.Tokens as token;
ghost use Rattle.grammar_descent.specs.Reading as reading;
ghost use Rattle.grammar_descent.specs.Types as types;
ghost use Rattle.token_reader.specs.Reader as spec;
ghost use Rattle.token_reader.specs.Reader.{IsSameText};
ghost use Rattle.token_reader.specs.Scoping.{spelled, AreSpelled};

use crate::error::ParseError;
use crate::kinds::{is_specifier_word, kind_at, line_at};
use crate::parameter_names::ParameterNames;
use crate::scope::Scope;
use c_grammar::{NameKind, Place};
use c_tokens::{Keyword, Kind, Mark, Token, same_kind};
use std::alloc::{AllocError, Global};
use std::marker::Model;
use token_texts::{TokenTexts, law_texts};

/// A reader of the tokens of a text: contracts see the text, its tokens, the table of its names, its place and what is in scope.
#[derive(Drop)]
pub struct Reader<'t> {
    text: &'t [u8],
    tokens: &'t [Token],
    texts: &'t TokenTexts,
    at: usize,
    scope: Scope,
}

impl<'t> Model for Reader<'t> {
    ghost use Rattle.token_reader.specs.Input.{Input};

    ghost Value = { Input };

    ghost use Rattle.token_reader.specs.Cursor.{input_of, IsWithin};

    ghost view = { input_of };

    ghost invariant = { IsWithin };
}

impl<'t> Reader<'t> {
    /// A reader of the whole text, where the predefined names are types, and those of these numbers.
    pub fn new(
        alloc: Global,
        text: &'t [u8],
        tokens: &'t [Token],
        texts: &'t TokenTexts,
        typedefs: &[u32],
    ) -> Result<Reader<'t>, AllocError>
        requires few { length tokens.now ≤ max_tokens }
        requires texts { AreTextsWith (map (name_of texts.now) typedefs.now) text.now tokens.now texts.now }
        requires within { All (λ n. n < length texts.now.names) typedefs.now }
        ensures { IfOk result (λ reader. reader ≡ spec.beginning text.entry.now tokens.entry.now texts.entry.now (type_names (map (name_of texts.entry.now) typedefs.now) ++ start)) }
    {
        law_texts();
        let scope = Scope::with_typedefs(alloc, typedefs)?;
        Ok(Reader {
            text,
            tokens,
            texts,
            at: 0,
            scope,
        })
    }

    /// The kind of the token so many after the next.
    pub fn kind_after(&self, n: usize) -> Option<Kind>
        requires { n ≤ 4 }
        ensures value { result ≡ token.kind_at self.now.tokens (self.now.state.at + n) }
        ensures within { OnSome result (self.now.state.at + n < length self.now.tokens) }
    {
        kind_at(self.tokens, self.at + n)
    }

    /// The kind of the next token.
    pub fn kind(&self) -> Option<Kind>
        ensures value { result ≡ token.kind_at self.now.tokens self.now.state.at }
        ensures within { OnSome result (self.now.state.at < length self.now.tokens) }
    {
        kind_at(self.tokens, self.at)
    }

    /// Whether a token of this kind stands next.
    pub fn sees(&self, kind: Kind) -> bool
        ensures value { result ≡ reading.sees self.now.tokens self.now.state.at kind }
        ensures within { result ≡ true → self.now.state.at < length self.now.tokens }
    {
        match self.kind() {
            Some(found) => same_kind(found, kind),
            None => false,
        }
    }

    /// Whether the mark stands next.
    pub fn sees_mark(&self, mark: Mark) -> bool
        ensures value { result ≡ reading.mark_at self.now.tokens self.now.state.at mark }
        ensures within { result ≡ true → self.now.state.at < length self.now.tokens }
    {
        self.sees(Kind::Mark(mark))
    }

    /// Whether the keyword stands next.
    pub fn sees_word(&self, word: Keyword) -> bool
        ensures value { result ≡ reading.word_at self.now.tokens self.now.state.at word }
        ensures within { result ≡ true → self.now.state.at < length self.now.tokens }
    {
        self.sees(Kind::Word(word))
    }

    /// Whether a token of this kind stands so many after the next.
    fn sees_after(&self, n: usize, kind: Kind) -> bool
        requires { n ≤ 4 }
        ensures value { result ≡ reading.sees self.now.tokens (self.now.state.at + n) kind }
        ensures within { result ≡ true → self.now.state.at + n < length self.now.tokens }
    {
        match self.kind_after(n) {
            Some(found) => same_kind(found, kind),
            None => false,
        }
    }

    /// Whether the mark stands so many after the next token.
    pub fn sees_mark_after(&self, n: usize, mark: Mark) -> bool
        requires { n ≤ 4 }
        ensures value { result ≡ reading.mark_at self.now.tokens (self.now.state.at + n) mark }
        ensures within { result ≡ true → self.now.state.at + n < length self.now.tokens }
    {
        self.sees_after(n, Kind::Mark(mark))
    }

    /// Whether a name stands so many after the next token.
    pub fn sees_name_after(&self, n: usize) -> bool
        requires { n ≤ 4 }
        ensures value { result ≡ reading.sees self.now.tokens (self.now.state.at + n) kind.Name }
        ensures within { result ≡ true → self.now.state.at + n < length self.now.tokens }
    {
        self.sees_after(n, Kind::Name)
    }

    /// Goes past so many tokens.
    pub fn pass(&mut self, n: usize)
        requires { self.old.state.at + n ≤ length self.old.tokens }
        ensures { self.new ≡ spec.moved self.old (reading.past self.old.state n) }
    {
        self.at += n;
    }

    /// Goes past the mark, or refuses where it does not stand next.
    pub fn expect(&mut self, mark: Mark) -> Result<(), ParseError>
        ensures ok { OnOk result ((reading.mark_at self.old.tokens self.old.state.at mark ≡ true) × (self.new ≡ spec.moved self.old (reading.past self.old.state 1))) }
        ensures err { OnErr result ((reading.mark_at self.old.tokens self.old.state.at mark ≡ false) × (self.new ≡ self.old)) }
        ensures kept { IsSameText self.old self.new }
    {
        if self.sees_mark(mark) {
            self.pass(1);
            Ok(())
        } else {
            Err(self.refuse())
        }
    }

    /// The refusal at the next token.
    pub fn refuse(&self) -> ParseError
        ensures { result ≡ ParseError.Syntax self.now.state.at }
    {
        ParseError::Syntax(self.at as u32)
    }

    /// The number of the next token.
    pub fn at(&self) -> usize
        ensures value { result ≡ self.now.state.at }
        ensures within { result ≤ max_tokens }
    {
        self.at
    }

    /// The number of tokens.
    pub fn tokens_len(&self) -> usize
        ensures value { result ≡ length self.now.tokens }
        ensures within { result ≤ max_tokens }
        ensures at { self.now.state.at ≤ result }
    {
        self.tokens.len()
    }

    /// The place of a token.
    #[tactic(auto, unfolding(c_grammar::specs::Tokens::place_at))]
    pub fn place_at(&self, at: usize) -> Place
        requires { at ≤ max_tokens + 4 }
        ensures { result ≡ token.place_at self.now.tokens at }
    {
        let line = line_at(self.tokens, at);
        Place {
            token: at as u32,
            line,
        }
    }

    /// The place of the next token.
    pub fn place(&self) -> Place
        ensures { result ≡ token.place_at self.now.tokens self.now.state.at }
    {
        self.place_at(self.at)
    }

    /// The number of the name that the token so many after the next is.
    pub fn name_after(&self, n: usize) -> u32
        requires near { n ≤ 4 }
        requires name { token.kind_at self.now.tokens (self.now.state.at + n) ≡ Some kind.Name }
        ensures name { name_of self.now.texts result ≡ name_at self.now.text self.now.tokens (self.now.state.at + n) }
        ensures within { result < length self.now.texts.names }
    {
        self.texts.number((self.at + n) as u32)
    }

    /// Whether the token so many after the next, which is a name, is the name of a type.
    pub fn names_a_type_after(&self, n: usize) -> bool
        requires near { n ≤ 4 }
        requires name { token.kind_at self.now.tokens (self.now.state.at + n) ≡ Some kind.Name }
        ensures { result ≡ types.names_a_type self.now.state.scope (name_at self.now.text self.now.tokens (self.now.state.at + n)) }
    {
        self.scope.is_type(self.texts.number((self.at + n) as u32))
    }

    /// Whether the next token, which is a name, is the name of a type.
    pub fn names_a_type(&self) -> bool
        requires { token.kind_at self.now.tokens self.now.state.at ≡ Some kind.Name }
        ensures { result ≡ types.names_a_type self.now.state.scope (name_at self.now.text self.now.tokens self.now.state.at) }
    {
        self.names_a_type_after(0)
    }

    /// Whether specifiers begin so many tokens after the next.
    #[tactic(auto, unfolding(grammar_descent::specs::Types::begins_specs))]
    pub fn begins_specs_after(&self, n: usize) -> bool
        requires { n ≤ 4 }
        ensures { result ≡ types.begins_specs self.now.text self.now.tokens self.now.state.scope (self.now.state.at + n) }
    {
        match self.kind_after(n) {
            Some(Kind::Word(word)) => is_specifier_word(word),
            Some(Kind::Name) => self.names_a_type_after(n),
            _ => false,
        }
    }

    /// Declares a name after all others.
    pub fn declare(&mut self, name: u32, kind: NameKind) -> Result<(), AllocError>
        requires { name < length self.old.texts.names }
        ensures ok { OnOk result (self.new ≡ spec.declared self.old name kind) }
        ensures err { OnErr result (self.new ≡ self.old) }
        ensures kept { IsSameText self.old self.new }
    {
        self.scope.declare(name, kind)?;
        Ok(())
    }

    /// How many names are in scope.
    pub fn in_scope(&self) -> usize
        ensures { result ≡ length self.now.state.scope }
    {
        self.scope.len()
    }

    /// Ends the scope of all names but the first `count`, counted from the outermost.
    pub fn close(&mut self, count: usize)
        ensures { self.new ≡ spec.with_scope self.old (drop (length self.old.state.scope - count) self.old.state.scope) }
    {
        self.scope.close(count);
    }

    /// Ends the scope of all names but the first `count`, and answers those that end.
    pub fn take_since(&mut self, alloc: Global, count: usize) -> Result<ParameterNames, AllocError>
        ensures value { IfOk result (λ own. spelled self.old.texts own ≡ take (length self.old.state.scope - count) self.old.state.scope) }
        ensures spelled { IfOk result (λ own. AreSpelled self.old.texts own) }
        ensures ok { OnOk result (self.new ≡ spec.with_scope self.old (drop (length self.old.state.scope - count) self.old.state.scope)) }
        ensures err { OnErr result (self.new ≡ self.old) }
        ensures kept { IsSameText self.old self.new }
    {
        let own = self.scope.since(alloc, count)?;
        self.scope.close(count);
        Ok(own)
    }

    /// Declares all of them again.
    pub fn declare_all(&mut self, own: &ParameterNames) -> Result<(), AllocError>
        requires { AreSpelled self.old.texts own.now }
        ensures ok { OnOk result (self.new ≡ spec.with_scope self.old (spelled self.old.texts own.now ++ self.old.state.scope)) }
        ensures kept { IsSameText self.old self.new }
    {
        self.scope.declare_all(own)?;
        Ok(())
    }
}

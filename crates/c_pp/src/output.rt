//! The tokens that are put out.

ghost use Rattle.std.specs.Prelude.{◌≡◌, false, [], List, ◌∷◌, ◌++◌, IfOk, OnOk};
ghost use Rattle.c_tokens.specs.declared.token.Token.{Token as Piece};
ghost use Rattle.c_pp.specs.Macros.{on_line};
ghost use Rattle.c_pp.specs.Walks.{Holds, StandsAt};

use crate::span::Span;
use c_tokens::{MAX_TOKENS, Token};
use std::alloc::{AllocError, Global};

/// What was put out, as long as it is not too much.
#[derive(Drop)]
pub struct Output {
    pub tokens: Vec<Token>,
    pub is_over: bool,
}

impl Output {
    pub fn new(alloc: Global) -> Output
        ensures { Holds result [] }
    {
        Output {
            tokens: Vec::new(alloc),
            is_over: false,
        }
    }

    /// Puts a token out.
    pub fn push(&mut self, token: Token) -> Result<(), AllocError>
        ensures { (made : List Piece) → Holds self.old made → OnOk result (Holds self.new (made ++ token ∷ [])) }
    {
        if self.is_over || self.tokens.len() == MAX_TOKENS {
            self.is_over = true;
            return Ok(());
        }
        self.tokens.push(token)?;
        Ok(())
    }

    /// Puts a part of what was put out once more, on another line.
    pub fn repeat(&mut self, span: Span, line: u32) -> Result<(), AllocError>
        ensures { (made piece : List Piece) → Holds self.old made → StandsAt made span piece → OnOk result (Holds self.new (made ++ on_line line piece)) }
    {
        for at in span.start..span.end {
            if self.is_over {
                break;
            }
            match self.tokens.get(at) {
                Some(token) => {
                    let again = Token { line, ..*token };
                    self.push(again)?;
                }
                None => break,
            }
        }
        Ok(())
    }
}

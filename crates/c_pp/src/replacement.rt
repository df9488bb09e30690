//! What stands for a token: macros are replaced (C11 6.10.3).

ghost use Rattle.std.specs.Prelude.{◌≡◌, ◌⊎◌, ℕ, ◌<◌, [], ◌∷◌, List, length, Some, alloc_error, slice_get, IfOk, OnOk, MatchResult};
ghost use Rattle.c_tokens.specs.declared.token.Token.{Token as Piece};
ghost use Rattle.c_tokens.specs.Names.{Text, Name as Word};
ghost use Rattle.c_pp.specs.Macros.{Macros, Loops};
ghost use Rattle.c_pp.specs.Marked.{held, marks_of, met_of};
ghost use Rattle.c_pp.specs.Walks.{macro_at, Holds, Knows, IsSeen, PutsOut, IsFresh, IsReplaced, AreClosed, Covers, MeetsMore, AreMarkedMet, ReadsUpTo};

use crate::error::PpError;
use crate::marks::{Mark, Marks};
use crate::output::Output;
use crate::span::Span;
use c_tokens::Token;
use std::alloc::{AllocError, Global};

/// The tokens of a text, the number of the name that each is, and the body of the macro of each number, as a part of the tokens.
#[derive(Clone, Copy)]
pub struct Source<'a> {
    pub tokens: &'a [Token],
    pub numbers: &'a [Option<usize>],
    pub bodies: &'a [Option<Span>],
}

/// A macro by its number, and its body.
#[derive(Clone, Copy, Debug)]
pub struct Macro {
    pub number: usize,
    pub body: Span,
}

/// Why no more of some tokens is put out.
#[derive(Clone, Copy, Debug)]
pub enum Stop {
    /// All of it stands.
    End,
    /// A macro comes first of which nothing is known, before the rest.
    Enter(Macro, Span),
    /// A macro is being replaced already.
    Loop,
}

/// A macro that is being replaced: where the tokens that stand for it begin, and what follows its name.
#[derive(Clone, Copy, Debug)]
pub struct Open {
    pub number: usize,
    pub begin: usize,
    pub rest: Span,
}

impl Source<'_> {
    /// The macro whose name the token is.
    #[tactic(auto, unfolding(crate::specs::Walks::macro_at))]
    fn macro_at(&self, at: usize) -> Option<Macro>
        ensures { result ≡ macro_at self.now.numbers.now self.now.bodies.now at }
    {
        let number = self.number_at(at)?;
        let body = (*self.bodies.get(number)?)?;
        Some(Macro { number, body })
    }

    /// The number of the name that the token is.
    fn number_at(&self, at: usize) -> Option<usize>
        ensures { result ≡ held (slice_get self.now.numbers.now at) }
    {
        *self.numbers.get(at)?
    }
}

/// Puts out what stands for these tokens, up to a macro of which nothing is known.
fn put_out(
    source: &Source,
    span: Span,
    line: u32,
    marks: &mut Marks,
    output: &mut Output,
) -> Result<Stop, AllocError>
    requires { length (marks_of marks.old) ≡ length source.now.bodies.now }
    ensures same_marks { marks_of marks.new ≡ marks_of marks.old }
    ensures unchanged { marks.new.changes ≡ marks.old.changes }
    ensures met { MeetsMore source.now.bodies.now (marks_of marks.old) (met_of marks.old) (met_of marks.new) }
    ensures read { AreMarkedMet (marks_of marks.old) (met_of marks.old) →
        IfOk result (λ stop. ReadsUpTo source.now.tokens.now source.now.numbers.now source.now.bodies.now (met_of marks.new) span stop) }
    ensures fresh { IfOk result (λ stop. IsFresh (marks_of marks.old) (length source.now.bodies.now) stop) }
    ensures stopped { (text : Text) (macros : Macros) (name : ℕ → Word) (made : List Piece) →
        IsSeen text macros name source.now.tokens.now source.now.numbers.now source.now.bodies.now →
        Knows text macros name (marks_of marks.old) made → Holds output.old made →
        IfOk result (λ stop. PutsOut text macros name source.now.tokens.now (marks_of marks.old) (length source.now.bodies.now) span line made output.new stop) }
{
    for at in span.start..span.end {
        if at >= source.tokens.len() {
            break;
        }
        let token = source.tokens[at];
        let found = match source.macro_at(at) {
            Some(found) => found,
            None => {
                output.push(Token { line, ..token })?;
                marks.meet_token(source.number_at(at));
                continue;
            }
        };
        match marks.get(found.number) {
            Some(Mark::Known(piece)) => output.repeat(piece, line)?,
            Some(Mark::Open) => return Ok(Stop::Loop),
            None => {
                let rest = Span {
                    start: at + 1,
                    end: span.end,
                };
                return Ok(Stop::Enter(found, rest));
            }
        }
    }
    Ok(Stop::End)
}

/// Puts out what stands for the token there, on its line. Each macro that it leads to is gone through once, and what stands
/// for it is repeated where it comes again.
pub fn replace(
    alloc: Global,
    source: &Source,
    at: usize,
    marks: &mut Marks,
    output: &mut Output,
) -> Result<(), PpError>
    requires within { at < length source.now.tokens.now }
    requires marked { length (marks_of marks.old) ≡ length source.now.bodies.now }
    ensures marked { length (marks_of marks.new) ≡ length (marks_of marks.old) }
    ensures unchanged { marks.new.changes ≡ marks.old.changes }
    ensures covers { Covers source.now.tokens.now source.now.numbers.now source.now.bodies.now (marks_of marks.old) (met_of marks.old) →
        OnOk result (Covers source.now.tokens.now source.now.numbers.now source.now.bodies.now (marks_of marks.new) (met_of marks.new)) }
    ensures replaced { (text : Text) (macros : Macros) (name : ℕ → Word) (made : List Piece) (token : Piece) →
        slice_get source.now.tokens.now at ≡ Some token → IsSeen text macros name source.now.tokens.now source.now.numbers.now source.now.bodies.now →
        Knows text macros name (marks_of marks.old) made → AreClosed (marks_of marks.old) → Holds output.old made →
        MatchResult result (λ _. IsReplaced text macros name token made (marks_of marks.new) output.new)
        (λ e. (e ≡ PpError.Memory alloc_error) ⊎ ((e ≡ PpError.MacroLoop token.line) × Loops text macros [] (token ∷ []))) }
{
    if source.macro_at(at).is_none() {
        output.push(source.tokens[at])?;
        return Ok(());
    }
    let line = source.tokens[at].line;
    let mut opens: Vec<Open> = Vec::new(alloc);
    let mut span = Span {
        start: at,
        end: at + 1,
    };
    'walk: loop {
        match put_out(source, span, line, marks, output)? {
            Stop::Loop => return Err(PpError::MacroLoop(line)),
            Stop::Enter(found, rest) => {
                marks.meet(found.number);
                marks.set(found.number, Mark::Open);
                opens.push(Open {
                    number: found.number,
                    begin: output.tokens.len(),
                    rest,
                })?;
                span = found.body;
            }
            Stop::End => {
                let end = output.tokens.len();
                match opens.pop() {
                    None => return Ok(()),
                    Some(open) => {
                        let piece = Span {
                            start: open.begin,
                            end,
                        };
                        marks.set(open.number, Mark::Known(piece));
                        span = open.rest;
                    }
                }
            }
        }
    }
}

//! From a source text to its program.

ghost use Rattle.std.specs.Prelude.{◌≡◌, ◌<◌, ◌≤◌, ℕ, List, length, Contains, IfOk, IfErr};
ghost use Rattle.c_tokens.specs.Limits.{max_source_bytes, max_tokens};
ghost use Rattle.c_tokens.specs.declared.token.Token.{Token as Piece};
ghost use Rattle.c_grammar.specs.Units.{Derives};
ghost use Rattle.token_texts.specs.Strings.{HaveStrings};
ghost use Rattle.effsan_top.specs.Errors.{of_lexer};
ghost use Rattle.effsan_top.specs.Faults.{BecomesTokens, on};
ghost use Rattle.effsan_top.specs.Programs.{IsProgram, OneProgramLaw, NeverBothLaw, OneFaultLaw, ProgramOrFaultLaw};
ghost use Rattle.effsan_top.specs.Steps.{IsReading, HasProgramCause};

use crate::faults::{Fault, FaultKind, line_at};
use c_grammar::Unit;
use c_lexer::{LexError, Token, law_strings, law_tokens, lex};
use c_parser::{ParseError, parse};
use c_pp::{PpError, expand, law_expanded};
use grammar_descent::{law_derivation, law_readers};
use plain_meaning::Program;
use program_form::{FormError, law_form, program_of};
use std::alloc::{AllocError, Global};

/// Why a text has no program: memory ran out, or the first fault in it.
#[derive(Debug, Drop)]
pub enum ProgramError {
    Memory,
    Faulty(Fault),
}

/// A fault of this kind on a line.
fn faulty(kind: FaultKind, line: usize) -> ProgramError
    ensures { result ≡ ProgramError.Faulty (on kind line) }
{
    ProgramError::Faulty(Fault { kind, line })
}

/// Why the lexer refused a text.
fn unreadable(text: &[u8], error: LexError) -> ProgramError
    ensures { result ≡ of_lexer text.now error }
{
    match error {
        LexError::Memory(_) => ProgramError::Memory,
        LexError::BadByte(at) => faulty(FaultKind::BadByte, line_at(text, at)),
        LexError::OpenComment(at) => faulty(FaultKind::OpenComment, line_at(text, at)),
        LexError::OpenString(at) => faulty(FaultKind::OpenString, line_at(text, at)),
        LexError::NumberTooLarge(at) => faulty(FaultKind::NumberTooLarge, line_at(text, at)),
        LexError::BadEscape(at) => faulty(FaultKind::BadEscape, line_at(text, at)),
        LexError::TooManyTokens(at) => faulty(FaultKind::TooManyTokens, line_at(text, at)),
    }
}

impl From<PpError> for ProgramError {
    ghost use Rattle.effsan_top.specs.Errors.{of_expander};

    ghost from_gives = { λ p e. e ≡ of_expander p };

    fn from(error: PpError) -> ProgramError {
        match error {
            PpError::Memory(_) => ProgramError::Memory,
            PpError::UnknownHeader(line) => faulty(FaultKind::UnknownHeader, line as usize),
            PpError::BadDirective(line) => faulty(FaultKind::BadDirective, line as usize),
            PpError::MacroLoop(line) => faulty(FaultKind::MacroLoop, line as usize),
            PpError::TooManyTokens(line) => faulty(FaultKind::TooManyTokens, line as usize),
        }
    }
}

impl From<FormError> for ProgramError {
    ghost use Rattle.effsan_top.specs.Errors.{of_form};

    ghost from_gives = { λ p e. e ≡ of_form p };

    fn from(error: FormError) -> ProgramError {
        match error {
            FormError::Memory(_) => ProgramError::Memory,
            FormError::NotYet(line) => faulty(FaultKind::NotYet, line as usize),
        }
    }
}

impl From<AllocError> for ProgramError {
    ghost use Rattle.effsan_top.specs.declared.program.ProgramError.TheVariants.{Memory};

    ghost from_gives = { λ _ e. e ≡ Memory };

    fn from(_e: AllocError) -> ProgramError {
        ProgramError::Memory
    }
}

/// What the text becomes: its tokens, and those that stand for them when directives are obeyed and macros replaced.
fn read(alloc: Global, text: &[u8]) -> Result<Vec<Token>, ProgramError>
    requires { length text.now ≤ max_source_bytes }
    ensures found { IfOk result (λ tokens. IsReading text.now tokens.items) }
    ensures refused { IfErr result (λ error. HasProgramCause text.now error) }
{
    let tokens = match lex(alloc, text) {
        Ok(tokens) => tokens,
        Err(error) => return Err(unreadable(text, error)),
    };
    law_strings();
    Ok(expand(alloc, text, tokens.as_slice())?)
}

/// The line of a token, or of the last one where there is none of that number.
fn line_of(tokens: &[Token], at: u32) -> usize
    ensures { 0 < length tokens.now → (token : Piece) × Contains tokens.now token × (result ≡ token.line) }
{
    let last = tokens.len().saturating_sub(1);
    match tokens.get(last.min(at as usize)) {
        Some(token) => token.line as usize,
        None => 0,
    }
}

/// The unit that the tokens of a text derive.
fn unit_of(alloc: Global, text: &[u8], tokens: &[Token]) -> Result<Unit, ProgramError>
    requires small { length text.now ≤ max_source_bytes }
    requires few { length tokens.now ≤ max_tokens }
    requires strings { HaveStrings text.now tokens.now }
    requires becomes { BecomesTokens text.now tokens.now }
    ensures found { IfOk result (λ unit. Derives text.now tokens.now unit) }
    ensures refused { IfErr result (λ error. HasProgramCause text.now error) }
{
    match parse(alloc, text, tokens) {
        Ok(unit) => Ok(unit),
        Err(ParseError::Memory(_)) => Err(ProgramError::Memory),
        Err(ParseError::Syntax(at)) => Err(faulty(FaultKind::Syntax, line_of(tokens, at))),
    }
}

/// The program of a text: what it becomes derives a unit, which is of the form that runs.
pub fn text_program(alloc: Global, text: &[u8]) -> Result<Program, ProgramError>
    requires { length text.now ≤ max_source_bytes }
    ensures found { IfOk result (λ program. IsProgram text.now program) }
    ensures small { IfOk result (λ program. length program.functions ≤ 20000000) }
    ensures refused { IfErr result (λ error. HasProgramCause text.now error) }
{
    let tokens = read(alloc, text)?;
    let unit = unit_of(alloc, text, tokens.as_slice())?;
    law_derivation();
    Ok(program_of(alloc, &unit)?)
}

/// Each text has a program or a first fault, and never both. There is one program of a text and one fault, of which only the line
/// of `Syntax` is open: it is that of some token.
pub fn law_program()
    ensures one_program { OneProgramLaw }
    ensures never_both { NeverBothLaw }
    ensures one_fault { OneFaultLaw }
    ensures program_or_fault { ProgramOrFaultLaw }
{
    law_tokens();
    law_strings();
    law_expanded();
    law_readers();
    law_derivation();
    law_form();
}

//! Obeying directives and replacing macros (C11 5.1.1.2, phase 4).

ghost use Rattle.std.specs.Prelude.{◌≡◌, ◌⊎◌, ℕ, ◌+◌, ◌<◌, ◌≤◌, List, length, All, alloc_error, IfOk, IfErr, MatchResult};
ghost use Rattle.c_tokens.specs.declared.token.Token.{Token as Piece};
ghost use Rattle.c_pp.specs.declared.error.PpError.{PpError as Refusal};
ghost use Rattle.c_tokens.specs.Names.{Text};
ghost use Rattle.c_tokens.specs.Limits.{max_tokens};
ghost use Rattle.c_pp.specs.Expands.{Expands, IsPpFault, IsDrawn};

use crate::directive::begins_directive;
use crate::error::PpError;
use crate::marks::Marks;
use crate::numbers::number_names;
use crate::output::Output;
use crate::replacement::{Source, replace};
use crate::table::{Table, obey};
use c_tokens::Token;
use std::alloc::Global;

/// The tokens that are left, one line after another, or why they stop.
fn expanded_tokens(alloc: Global, text: &[u8], tokens: &[Token]) -> Result<Vec<Token>, PpError>
    requires { length tokens.now ≤ max_tokens }
    ensures found { IfOk result (λ out. Expands text.now tokens.now out.items) }
    ensures refused { IfErr result (λ e. (e ≡ PpError.Memory alloc_error) ⊎ IsPpFault text.now tokens.now e) }
{
    let names = number_names(alloc, text, tokens)?;
    let mut table = Table {
        bodies: vec![in alloc; None; names.count]?,
        marks: Marks::new(alloc, names.count)?,
    };
    let mut output = Output::new(alloc);
    let mut at = 0;
    'text: while at < tokens.len() {
        let token = tokens[at];
        if begins_directive(&token) {
            at = obey(
                alloc,
                text,
                tokens,
                names.numbers.as_slice(),
                at,
                &mut table,
            )?;
            continue;
        }
        let source = Source {
            tokens,
            numbers: names.numbers.as_slice(),
            bodies: table.bodies.as_slice(),
        };
        replace(alloc, &source, at, &mut table.marks, &mut output)?;
        if output.is_over {
            return Err(PpError::TooManyTokens(token.line));
        }
        at += 1;
    }
    Ok(output.tokens)
}

/// The tokens of a text with its directives obeyed and dropped, and with its macros replaced (C11 6.10). What stands for a
/// macro has the places of the tokens of its body and the line of its name.
pub fn expand(alloc: Global, text: &[u8], tokens: &[Token]) -> Result<Vec<Token>, PpError>
    requires { length tokens.now ≤ max_tokens }
    // What is answered is what the tokens become.
    ensures found { IfOk result (λ out. Expands text.now tokens.now out.items) }
    ensures few { IfOk result (λ out. length out.items ≤ max_tokens) }
    // Each token is one of those that were given, on the line of one of them.
    ensures drawn { IfOk result (λ out. All (IsDrawn tokens.now) out.items) }
    // What is refused becomes nothing, and this is the first reason in the text.
    ensures refused { IfErr result (λ e. (e ≡ PpError.Memory alloc_error) ⊎ IsPpFault text.now tokens.now e) }
    // No other answer fits, unless memory runs out.
    ensures only { (out : List Piece) → Expands text.now tokens.now out → MatchResult result (λ found. found.items ≡ out) (λ e. e ≡ PpError.Memory alloc_error) }
    ensures only_refused { (e : Refusal) → IsPpFault text.now tokens.now e → MatchResult result (λ found. ⊥) (λ got. (got ≡ e) ⊎ (got ≡ PpError.Memory alloc_error)) }
{
    expanded_tokens(alloc, text, tokens)
}

/// The tokens of a text become one list or are refused for one reason, and each token that is left is one of them but for
/// its line.
pub fn law_expanded()
    ensures one_list { (text : Text) (ts a b : List Piece) → Expands text ts a → Expands text ts b → a ≡ b }
    ensures not_both { (text : Text) (ts out : List Piece) (e : Refusal) → Expands text ts out → IsPpFault text ts e → ⊥ }
    ensures one_reason { (text : Text) (ts : List Piece) (d e : Refusal) → IsPpFault text ts d → IsPpFault text ts e → d ≡ e }
    ensures one_of_both { (text : Text) (ts : List Piece) → ((out : List Piece) × Expands text ts out) ⊎ ((e : Refusal) × IsPpFault text ts e) }
    ensures drawn { (text : Text) (ts out : List Piece) → Expands text ts out → All (IsDrawn ts) out }
{}

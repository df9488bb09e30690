//! Cutting a text into tokens (C11 6.4).

ghost use Rattle.std.specs.Prelude.{◌≡◌, true, ◌⊎◌, ℕ, ◌+◌, ◌<◌, ◌≤◌, List, length, Contains, alloc_error, IfOk, IfErr, MatchResult};
ghost use Rattle.c_tokens.specs.declared.token.Token.{Token as Piece};
ghost use Rattle.c_tokens.specs.declared.kind.Kind.TheVariants.{Name};
ghost use Rattle.c_tokens.specs.Limits.{max_source_bytes, max_tokens};
ghost use Rattle.c_lexer.specs.declared.error.LexError.{LexError as Refusal};
ghost use Rattle.c_lexer.specs.Joined.{joined_bytes, joined_origins};
ghost use Rattle.c_lexer.specs.Lexes.{Lexes, HasLexFault, AreSmall, Tokens, IsLexFault, IsNameOf, token_at};

use crate::error::{LexError, refusal};
use crate::front::lexeme;
use crate::joined::{Origin, join_lines};
use crate::lexeme::Lexeme;
use c_tokens::{Kind, MAX_TOKENS, Token};
use std::alloc::{AllocError, Global};

/// The token of the bytes from the index on.
fn token(origins: &[Origin], kind: Kind, at: usize, len: usize, first: bool) -> Token
    requires some { 0 < len }
    requires within { at + len ≤ length origins.now }
    requires small { AreSmall max_source_bytes origins.now }
    ensures { result ≡ token_at origins.now kind at len first }
{
    let start = origins[at];
    let last = origins[at + len - 1];
    Token {
        kind,
        start: start.offset,
        end: last.offset + 1,
        line: start.line,
        first,
    }
}

/// The tokens, one after another, or why they stop.
fn tokens_of(alloc: Global, bytes: &[u8], origins: &[Origin]) -> Result<Vec<Token>, LexError>
    requires alike { length bytes.now ≡ length origins.now }
    requires small { AreSmall max_source_bytes origins.now }
    ensures found { IfOk result (λ tokens. Lexes origins.now max_tokens 0 true bytes.now tokens.items) }
    ensures refused { IfErr result (λ e. (e ≡ LexError.Memory alloc_error) ⊎ HasLexFault origins.now max_tokens 0 bytes.now e) }
{
    let mut tokens = Vec::new(alloc);
    let mut at = 0;
    let mut first = true;
    'text: while at < bytes.len() {
        if bytes[at] == b'\n' {
            at += 1;
            first = true;
            continue;
        }
        match lexeme(bytes, at) {
            None => return Err(LexError::BadByte(origins[at].offset)),
            Some((Lexeme::Faulty(fault), _)) => return Err(refusal(fault, origins[at].offset)),
            Some((Lexeme::Gap, len)) => at += len,
            Some((Lexeme::Sound(kind), len)) => {
                if tokens.len() == MAX_TOKENS {
                    return Err(LexError::TooManyTokens(origins[at].offset));
                }
                tokens.push(token(origins, kind, at, len, first))?;
                at += len;
                first = false;
            }
        }
    }
    Ok(tokens)
}

/// The tokens of a whole text (C11 6.4). Offsets are counted in bytes from 0, lines from 1.
pub fn lex(alloc: Global, text: &[u8]) -> Result<Vec<Token>, LexError>
    requires { length text.now ≤ max_source_bytes }
    // What is answered are the tokens of the text, each the longest that begins where it does.
    ensures found { IfOk result (λ tokens. Tokens text.now tokens.items) }
    ensures few { IfOk result (λ tokens. length tokens.items ≤ max_tokens) }
    // What is refused has no tokens, and this is the first reason in the text.
    ensures refused { IfErr result (λ e. (e ≡ LexError.Memory alloc_error) ⊎ IsLexFault text.now e) }
    // No other answer fits, unless memory runs out.
    ensures only { (ts : List Piece) → Tokens text.now ts → MatchResult result (λ tokens. tokens.items ≡ ts) (λ e. e ≡ LexError.Memory alloc_error) }
    ensures only_refused { (e : Refusal) → IsLexFault text.now e → MatchResult result (λ tokens. ⊥) (λ got. (got ≡ e) ⊎ (got ≡ LexError.Memory alloc_error)) }
{
    let joined = join_lines(alloc, text)?;
    tokens_of(alloc, joined.bytes.as_slice(), joined.origins.as_slice())
}

/// A text has tokens or is refused: one list, or one reason.
pub fn law_tokens()
    ensures one_list { (text : List ℕ) (ts us : List Piece) → Tokens text ts → Tokens text us → ts ≡ us }
    ensures not_both { (text : List ℕ) (ts : List Piece) (e : Refusal) → Tokens text ts → IsLexFault text e → ⊥ }
    ensures one_reason { (text : List ℕ) (d e : Refusal) → IsLexFault text d → IsLexFault text e → d ≡ e }
    ensures one_of_both { (text : List ℕ) → ((ts : List Piece) × Tokens text ts) ⊎ ((e : Refusal) × IsLexFault text e) }
{}

/// What a name token is spelled with, without what joins lines, is the longest lexeme of the joined bytes there.
pub fn law_names()
    ensures { (text : List ℕ) (ts : List Piece) (t : Piece) → Tokens text ts → Contains ts t → t.kind ≡ Name → IsNameOf text t }
{}

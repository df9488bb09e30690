//! What a text shows when it is read.

ghost use Rattle.std.specs.Prelude.{◌≤◌, length};
ghost use Rattle.c_tokens.specs.Limits.{max_source_bytes};

use c_lexer::{Kind, Token, lex, text_bytes};
use c_pp::{PpError, expand};
use std::alloc::{AllocError, Global};

/// The tokens of a text, each as its kind, its offsets, its line and a star if it is the first of its line; or the
/// refusal.
pub fn shown_tokens(alloc: Global, text: &[u8]) -> Result<String, AllocError>
    requires { length text.now ≤ max_source_bytes }
{
    let mut all = String::new(alloc);
    match lex(alloc, text) {
        Ok(tokens) => {
            for token in tokens.iter() {
                let kind = token.kind;
                let start = token.start;
                let end = token.end;
                let line = token.line;
                let star = if token.first { "*" } else { "" };
                write!(all, "{kind:?} {start}..{end} {line}{star}; ")?;
            }
        }
        Err(error) => write!(all, "{error:?}")?,
    }
    Ok(all)
}

/// The tokens of a text, each as its kind alone; or the refusal.
pub fn shown_kinds(alloc: Global, text: &[u8]) -> Result<String, AllocError>
    requires { length text.now ≤ max_source_bytes }
{
    let mut all = String::new(alloc);
    match lex(alloc, text) {
        Ok(tokens) => {
            for token in tokens.iter() {
                let kind = token.kind;
                write!(all, "{kind:?}; ")?;
            }
        }
        Err(error) => write!(all, "{error:?}")?,
    }
    Ok(all)
}

/// Adds the bytes of a string literal as decimal numbers.
fn append_bytes(
    alloc: Global,
    to: &mut String,
    text: &[u8],
    token: &Token,
) -> Result<(), AllocError>
    requires { length text.now ≤ max_source_bytes }
{
    let bytes = text_bytes(alloc, text, token)?;
    for byte in bytes.iter() {
        write!(to, "{byte} ")?;
    }
    Ok(())
}

/// The bytes of each string literal of a text, and behind a bar those of the same token on another line and at another
/// place of it; or that the text is refused.
pub fn shown_strings(alloc: Global, text: &[u8]) -> Result<String, AllocError>
    requires { length text.now ≤ max_source_bytes }
{
    let mut all = String::new(alloc);
    let Ok(tokens) = lex(alloc, text) else {
        return format!(in alloc; "no tokens");
    };
    for token in tokens.iter() {
        if token.kind == Kind::Str {
            let elsewhere = Token {
                line: 77,
                first: !token.first,
                ..*token
            };
            append_bytes(alloc, &mut all, text, token)?;
            all.push_str("| ")?;
            append_bytes(alloc, &mut all, text, &elsewhere)?;
            all.push_str("; ")?;
        }
    }
    Ok(all)
}

/// The tokens that are left of a text behind the preprocessor, each as its offsets and its line; or the refusal.
pub fn shown_left(alloc: Global, text: &[u8]) -> Result<String, AllocError>
    requires { length text.now ≤ max_source_bytes }
{
    let Ok(tokens) = lex(alloc, text) else {
        return format!(in alloc; "no tokens");
    };
    let mut all = String::new(alloc);
    match expand(alloc, text, tokens.as_slice()) {
        Ok(left) => {
            for token in left.iter() {
                let start = token.start;
                let end = token.end;
                let line = token.line;
                write!(all, "{start}..{end} {line}; ")?;
            }
        }
        Err(error) => write!(all, "{error:?}")?,
    }
    Ok(all)
}

/// How many tokens are left of a text behind the preprocessor, or what is told of the refusal.
pub fn number_left(alloc: Global, text: &[u8]) -> Result<String, AllocError>
    requires { length text.now ≤ max_source_bytes }
{
    let Ok(tokens) = lex(alloc, text) else {
        return format!(in alloc; "no tokens");
    };
    match expand(alloc, text, tokens.as_slice()) {
        Ok(left) => left.len().to_string(alloc),
        Err(PpError::Memory(_)) => format!(in alloc; "memory"),
        Err(error) => format!(in alloc; "{error}"),
    }
}

//! What the line after a `#` says (C11 6.10).

ghost use Rattle.std.specs.Prelude.{◌≡◌, ◌+◌, ◌≤◌, IfOk, length, drop};
ghost use Rattle.c_pp.specs.Directives as spec;
ghost use Rattle.c_pp.specs.Reading as reading;
ghost use Rattle.std.specs.List.{list_any};
ghost use Rattle.std.specs.Str.{bytes_eq};

use c_tokens::{Kind, Mark, Token, is_name, spelling, written};
use std::alloc::{AllocError, Global};

/// What a directive says. The name that is defined or given up is the second word after the `#`, and a body is all after it.
#[derive(Clone, Copy, Debug)]
pub enum Directive {
    Nothing,
    Define,
    Undefine,
    UnknownHeader,
    Unknown,
}

/// Whether a directive begins with the token: a `#` that is the first of its line.
pub fn begins_directive(token: &Token) -> bool
    ensures { result ≡ spec.begins_directive token.now }
{
    matches!(token.kind, Kind::Mark(Mark::Hash)) && token.first
}

/// How many of the tokens stand before the next that is first of its line.
fn rest_len(tokens: &[Token]) -> usize
    ensures value { result ≡ reading.line_len tokens.now }
    ensures within { result ≤ length tokens.now }
{
    tokens.iter().take_while(|token| !token.first).count()
}

/// How many tokens from there on stand on the same line as the token before them.
pub fn line_len(tokens: &[Token], at: usize) -> usize
    requires { at ≤ length tokens.now }
    ensures value { result ≡ reading.line_len (drop at tokens.now) }
    ensures within { at + result ≤ length tokens.now }
{
    rest_len(&tokens[at..])
}

/// Whether it is one of the headers that the language has.
fn is_known(header: &[u8]) -> bool
    ensures { result ≡ list_any (λ known. bytes_eq header.now known) spec.headers }
{
    header == b"<stdio.h>".as_slice()
        || header == b"<stdlib.h>".as_slice()
        || header == b"<string.h>".as_slice()
        || header == b"<stddef.h>".as_slice()
        || header == b"<stdint.h>".as_slice()
        || header == b"<stdatomic.h>".as_slice()
}

/// Where the last of the tokens ends.
fn last_end(tokens: &[Token]) -> u32
    ensures { result ≡ spec.last_end 0 tokens.now }
{
    match tokens.last() {
        Some(token) => token.end,
        None => 0,
    }
}

/// What an `#include` of these tokens says.
fn include(alloc: Global, text: &[u8], header: &[Token]) -> Result<Directive, AllocError>
    ensures { IfOk result (λ said. said ≡ reading.include text.now header.now) }
{
    let Some(first) = header.first() else {
        return Ok(Directive::UnknownHeader);
    };
    let spelled = written(alloc, text, first.start as usize, last_end(header) as usize)?;
    if is_known(spelled.as_slice()) {
        Ok(Directive::Nothing)
    } else {
        Ok(Directive::UnknownHeader)
    }
}

/// Whether the body of a `#define` begins with a parenthesis that touches the name.
fn touches(alloc: Global, text: &[u8], name: &Token, body: &[Token]) -> Result<bool, AllocError>
    ensures { IfOk result (λ found. found ≡ spec.touches text.now name.now body.now) }
{
    let Some(paren) = body.first() else {
        return Ok(false);
    };
    if !matches!(paren.kind, Kind::Mark(Mark::LeftParen)) {
        return Ok(false);
    }
    let between = written(alloc, text, name.end as usize, paren.start as usize)?;
    Ok(between.is_empty())
}

/// What a `#define` of these tokens says.
fn define(alloc: Global, text: &[u8], words: &[Token]) -> Result<Directive, AllocError>
    ensures { IfOk result (λ said. said ≡ reading.define text.now words.now) }
{
    let Some(name) = words.first() else {
        return Ok(Directive::Unknown);
    };
    if !is_name(name.kind) || touches(alloc, text, name, &words[1..])? {
        return Ok(Directive::Unknown);
    }
    Ok(Directive::Define)
}

/// What an `#undef` of these tokens says.
fn undef(words: &[Token]) -> Directive
    ensures { result ≡ reading.undef words.now }
{
    match words {
        [name] if is_name(name.kind) => Directive::Undefine,
        _ => Directive::Unknown,
    }
}

/// What the words after a `#` say.
#[tactic(auto, unfolding(crate::specs::Reading::said))]
pub fn read_line(alloc: Global, text: &[u8], words: &[Token]) -> Result<Directive, AllocError>
    ensures { IfOk result (λ said. said ≡ reading.said text.now words.now) }
{
    let Some(word) = words.first() else {
        return Ok(Directive::Nothing);
    };
    if !is_name(word.kind) {
        return Ok(Directive::Unknown);
    }
    let spelled = spelling(alloc, text, word)?;
    if spelled.as_slice() == b"include".as_slice() {
        include(alloc, text, &words[1..])
    } else if spelled.as_slice() == b"define".as_slice() {
        define(alloc, text, &words[1..])
    } else if spelled.as_slice() == b"undef".as_slice() {
        Ok(undef(&words[1..]))
    } else {
        Ok(Directive::Unknown)
    }
}

//! From texts to what is shown: the tree, or the number of the token that is refused.

ghost use Rattle.std.specs.Prelude.{◌≡◌, ◌≤◌, length, IfOk};
ghost use Rattle.c_tokens.specs.Limits.{max_source_bytes, max_tokens};
ghost use Rattle.token_texts.specs.Strings.{HaveStrings};

use crate::phrases::type_phrase;
use crate::script::{Script, View};
use crate::sketch::Sketch;
use crate::statements::{items, unit};
use byte_texts::Text;
use c_grammar::{External, Unit};
use c_lexer::{LexError, law_strings, lex};
use c_parser::{ParseError, parse, parse_type_name};
use c_pp::{PpError, expand};
use c_tokens::{MAX_SOURCE_BYTES, Token};
use std::alloc::{AllocError, Global};

/// Why a text becomes no tokens.
#[derive(Debug, Drop)]
enum Unread {
    NoTokens(LexError),
    NotExpanded(PpError),
}

impl From<PpError> for Unread {
    ghost use Rattle.tree_cases.specs.declared.reading.Unread.TheVariants.{NotExpanded};

    ghost from_gives = { λ e r. r ≡ NotExpanded e };

    fn from(e: PpError) -> Unread {
        Unread::NotExpanded(e)
    }
}

/// The tokens of a text, after its directives were obeyed and its macros replaced.
fn tokens_of(alloc: Global, text: &[u8]) -> Result<Vec<Token>, Unread>
    requires { length text.now ≤ max_source_bytes }
    ensures few { IfOk result (λ tokens. length tokens.items ≤ max_tokens) }
    ensures strings { IfOk result (λ tokens. HaveStrings text.now tokens.items) }
{
    let tokens = match lex(alloc, text) {
        Ok(tokens) => tokens,
        Err(error) => return Err(Unread::NoTokens(error)),
    };
    law_strings();
    Ok(expand(alloc, text, tokens.as_slice())?)
}

fn refusal(alloc: Global, error: &ParseError) -> Result<String, AllocError> {
    match error {
        ParseError::Syntax(at) => format!(in alloc; "token {at}"),
        ParseError::Memory(_) => Err(AllocError),
    }
}

fn draw(out: &mut Sketch<'_>, tree: &Unit, view: View) {
    match view {
        View::Count => out.number(tree.items.len() as u64, " items"),
        View::Reads => out.word("read"),
        View::Body => match tree.items.as_slice().last() {
            Some(External::Function(function)) => items(out, function.body.items.as_slice()),
            _ => out.word("no function"),
        },
        _ => unit(out, tree),
    }
}

fn unit_text(alloc: Global, view: View, text: &[u8], tokens: &[Token]) -> Result<String, AllocError>
    requires small { length text.now ≤ max_source_bytes }
    requires few { length tokens.now ≤ max_tokens }
    requires strings { HaveStrings text.now tokens.now }
{
    match parse(alloc, text, tokens) {
        Ok(tree) => {
            let mut out = Sketch::new(alloc, &tree.texts, matches!(view, View::Places));
            draw(&mut out, &tree, view);
            out.finish()
        }
        Err(error) => refusal(alloc, &error),
    }
}

/// The name of a type, where names of these letters are types.
fn type_text(
    alloc: Global,
    letters: &str,
    text: &[u8],
    tokens: &[Token],
) -> Result<String, AllocError>
    requires small { length text.now ≤ max_source_bytes }
    requires few { length tokens.now ≤ max_tokens }
    requires strings { HaveStrings text.now tokens.now }
{
    let mut types = Vec::new(alloc);
    for letter in letters.bytes() {
        let mut name = Text::new(alloc);
        name.push(letter)?;
        types.push(name)?;
    }
    match parse_type_name(alloc, text, tokens, types.as_slice()) {
        Ok(tree) => {
            let mut out = Sketch::new(alloc, &tree.texts, false);
            type_phrase(&mut out, &tree.phrase);
            out.finish()
        }
        Err(error) => refusal(alloc, &error),
    }
}

/// Each token with its kind, its line and where it begins.
fn tokens_text(alloc: Global, tokens: &[Token]) -> Result<String, AllocError> {
    let mut listed = String::new(alloc);
    for token in tokens {
        if !listed.is_empty() {
            listed.push_str(", ")?;
        }
        let Token {
            kind,
            line,
            start,
            ..
        } = token;
        listed.push_str(format!(in alloc; "{kind:?} line {line} start {start}")?.as_str())?;
    }
    Ok(listed)
}

/// What a script asks for of a text, after its directives were obeyed and its macros replaced.
pub fn view_text(alloc: Global, script: &Script, text: &[u8]) -> Result<String, AllocError> {
    let Some(view) = script.view else {
        return format!(in alloc; "no such view or field");
    };
    if text.len() > MAX_SOURCE_BYTES {
        return format!(in alloc; "too large");
    }
    let tokens = match tokens_of(alloc, text) {
        Ok(tokens) => tokens,
        Err(Unread::NoTokens(error)) => return format!(in alloc; "{error}"),
        Err(Unread::NotExpanded(error)) => return format!(in alloc; "{error}"),
    };
    let tokens = tokens.as_slice();
    match view {
        View::Tokens => tokens_text(alloc, tokens),
        View::TypeName => type_text(alloc, script.letters.as_str(), text, tokens),
        _ => unit_text(alloc, view, text, tokens),
    }
}

//! What tokens are.

ghost use Rattle.std.specs.Prelude.{◌≡◌, ◌<◌, length, slice_get, OnSome};
ghost use Rattle.c_grammar.specs.Tokens as token;
ghost use Rattle.grammar_descent.specs.Follow as follow;

use c_tokens::{Keyword, Kind, Token};

/// What stands there, which is nothing past the last token.
#[tactic(auto, unfolding(c_grammar::specs::Tokens::kind_at))]
pub fn kind_at(tokens: &[Token], at: usize) -> Option<Kind>
    ensures value { result ≡ token.kind_at tokens.now at }
    ensures within { OnSome result (at < length tokens.now) }
{
    match tokens.get(at) {
        Some(token) => Some(token.kind),
        None => None,
    }
}

/// The line of the token there, which is 0 past the last token.
pub fn line_at(tokens: &[Token], at: usize) -> u32
    ensures { result ≡ token.line_of (slice_get tokens.now at) }
{
    match tokens.get(at) {
        Some(token) => token.line,
        None => 0,
    }
}

/// Whether the word begins a declaration specifier (C11 6.7.1 to 6.7.4).
pub fn is_specifier_word(word: Keyword) -> bool
    ensures { result ≡ follow.is_specifier_word word }
{
    match word {
        Keyword::Typedef
        | Keyword::Extern
        | Keyword::Static
        | Keyword::Register
        | Keyword::Auto
        | Keyword::Const
        | Keyword::Restrict
        | Keyword::Inline
        | Keyword::Void
        | Keyword::Char
        | Keyword::Short
        | Keyword::Int
        | Keyword::Long
        | Keyword::Signed
        | Keyword::Unsigned
        | Keyword::Struct
        | Keyword::Union
        | Keyword::Enum => true,
        _ => false,
    }
}

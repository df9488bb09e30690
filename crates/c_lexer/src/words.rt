//! Words: names and keywords (C11 6.4.1 and 6.4.2).

ghost use Rattle.std.specs.Prelude.{◌≡◌, ◌≤◌, length};
ghost use Rattle.std.specs.List.{prefix_len};
ghost use Rattle.c_tokens.specs.Words.{keywords};
ghost use Rattle.c_lexer.specs.Bytes as bytes;
ghost use Rattle.c_lexer.specs.Scan as spec;

use crate::bytes::is_word;
use crate::lexeme::Lexeme;
use crate::tables::entry_of;
use c_tokens::{KEYWORDS, Kind};

/// The length of the word at the front.
fn word_len(s: &[u8]) -> usize
    ensures value { result ≡ prefix_len bytes.is_word s.now }
    ensures within { result ≤ length s.now }
{
    s.iter().take_while(|b| is_word(**b)).count()
}

/// The word at the front, with its length.
#[tactic(auto, unfolding(crate::specs::Scan::word_at))]
pub fn word(s: &[u8]) -> (Lexeme, usize)
    ensures { result ≡ spec.word_at s.now }
{
    let len = word_len(s);
    (Lexeme::Sound(word_kind(&s[..len])), len)
}

/// A keyword or a name.
fn word_kind(word: &[u8]) -> Kind
    ensures { result ≡ spec.kind_of (spec.entry_of keywords word.now) }
{
    match entry_of(&KEYWORDS, word) {
        Some(keyword) => Kind::Word(keyword),
        None => Kind::Name,
    }
}

//! The format that runs.

ghost use Rattle.std.specs.Prelude.{◌≡◌, ◌-◌};
ghost use Rattle.std.specs.Str.{bytes_eq};
ghost use Rattle.form_parts.specs.Formats as spec;

use c_grammar::Expression;
use token_texts::TokenTexts;

/// `%d` and the end of a line.
const FORMAT: &[u8; 3] = b"%d\n";

/// Whether the string literals from a token up to another mean the format together.
fn are_format(texts: &TokenTexts, from: u32, end: u32) -> bool
    ensures { result ≡ bytes_eq (spec.joined_strings texts.now (end - from) from) spec.format }
{
    let mut rest = FORMAT.as_slice();
    for token in from..end {
        match rest.strip_prefix(texts.string(texts.number(token))) {
            Some(after) => rest = after,
            None => return false,
        }
    }
    rest.is_empty()
}

/// Whether an expression is string literals that mean `%d` and the end of a line.
#[tactic(auto, unfolding(crate::specs::Formats::is_format))]
pub fn is_format(texts: &TokenTexts, expression: &Expression) -> bool
    ensures { result ≡ spec.is_format texts.now expression.now }
{
    match expression {
        Expression::Strings(place, end) => are_format(texts, place.token, *end),
        _ => false,
    }
}

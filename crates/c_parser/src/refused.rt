//! Which token the refusal of a text names.

ghost use Rattle.token_reader.specs.Refused.{IsSameButToken};
ghost use Rattle.std.specs.Prelude.{◌≡◌, ℕ, Err, min};
ghost use Rattle.token_reader.specs.declared.error.ParseError.TheVariants.{Syntax};
ghost use Rattle.c_parser.specs.Refused.{IsRefusedWithin};

use token_reader::ParseError;

/// The same, but that a refusal names no token after the one of this number.
pub fn refused_within<T>(found: Result<T, ParseError>, last: u32) -> Result<T, ParseError>
    ensures same { IsSameButToken found result }
    ensures within { IsRefusedWithin last result }
    ensures nearest { (at : ℕ) → found ≡ Err (Syntax at) → result ≡ Err (Syntax (min at last)) }
{
    match found {
        Err(ParseError::Syntax(at)) => Err(ParseError::Syntax(at.min(last))),
        other => other,
    }
}

//! Which token the refusal of a phrase names.

ghost use Rattle.std.specs.Prelude.{◌≡◌, ℕ, Err, Some, None};
ghost use Rattle.token_reader.specs.declared.error.ParseError.TheVariants.{Syntax};
ghost use Rattle.token_reader.specs.Refused.{IsSameButToken};

use crate::error::ParseError;

/// The same, but that a refusal names this token, if there is one.
pub fn refused_at<T>(found: Result<T, ParseError>, token: Option<u32>) -> Result<T, ParseError>
    ensures same { IsSameButToken found result }
    ensures named { (at n : ℕ) → token ≡ Some at → found ≡ Err (Syntax n) → result ≡ Err (Syntax at) }
    ensures kept { token ≡ None → result ≡ found }
{
    let Some(at) = token else {
        return found;
    };
    match found {
        Err(ParseError::Syntax(_)) => Err(ParseError::Syntax(at)),
        other => other,
    }
}

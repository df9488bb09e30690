//! Functions by their names.

ghost use Rattle.std.specs.Prelude.{◌≡◌, ◌≤◌, length, MatchResult};
ghost use Rattle.plain_meaning.specs.Names.{IsEntry, HasNone};

use crate::tree::Program;
use thiserror::Error;

/// Why a name gives no function.
#[derive(Debug, Drop, Error)]
pub enum NameError {
    #[error("no function has this name")]
    NotFound,
}

/// The number of the first function of this name.
pub fn find_entry(program: &Program, name: &[u8]) -> Result<u32, NameError>
    requires { length program.now.functions ≤ 20000000 }
    ensures { MatchResult result (λ number. IsEntry program.now name.now number) (λ error. HasNone program.now name.now) }
{
    for (number, function) in program.functions.as_slice().iter().enumerate() {
        if function.name.bytes() == name {
            return Ok(number as u32);
        }
    }
    Err(NameError::NotFound)
}

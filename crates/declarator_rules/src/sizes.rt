//! Sizes of arrays.

ghost use Rattle.std.specs.Prelude.{◌≡◌};
ghost use Rattle.declaration_rules.specs.Declarators as spec;
ghost use Rattle.rule_answers.specs.Gives.{GivesValue};

use rule_answers::fault;
use static_rules::{CheckError, CheckKind, Feature};

/// How many elements an array of this size has (C11 6.7.6.2p1). A count that no object has is as good as any other such.
pub fn count_of(here: u32, size: i128) -> Result<u32, CheckError>
    ensures { GivesValue (spec.count_of here size) result }
{
    if size < 1 {
        return Err(fault(CheckKind::LeftOut(Feature::ArraySize), here));
    }
    Ok(size.min(4_294_967_295) as u32)
}

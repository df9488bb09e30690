//! Types that the table may not have yet.

ghost use Rattle.rule_answers.specs.Gives.{Makes};
ghost use Rattle.static_rules.specs.Primaries as primaries;

use c_types::TypeNo;
use rule_answers::in_table;
use static_rules::{CheckError, Made, State};

/// The type of an object by now: that of an array without a size is an open array in its own initialiser.
#[tactic(auto, unfolding(static_rules::specs::Primaries::kind_by_now))]
pub fn kind_by_now(state: &mut State, kind: TypeNo) -> Result<TypeNo, CheckError>
    ensures { Makes (primaries.kind_by_now state.old kind) result state.new }
{
    if kind == 0 {
        let of = state.open_element;
        in_table(state, &Made::Open(of))
    } else {
        Ok(kind)
    }
}

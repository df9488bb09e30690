//! `[]` (C11 6.5.2.1).

ghost use Rattle.std.specs.Prelude.{◌≡◌};
ghost use Rattle.static_rules.specs.Places as spec;

use crate::kinds::{is_whole, sized_target};
use c_types::TypeTable;
use static_rules::{Indexing, Seen};

/// Which operand of `[]` is the pointer, with the type of its target; nothing where the other is no whole number.
#[tactic(auto, unfolding(static_rules::specs::Places::indexing_of))]
pub fn indexing_of(types: &TypeTable, x: Seen, y: Seen) -> Option<Indexing>
    ensures { result ≡ spec.indexing_of types.now x y }
{
    if let Some(to) = sized_target(types, x.kind) {
        return is_whole(y.kind).then_some(Indexing::First(to));
    }
    let to = sized_target(types, y.kind)?;
    is_whole(x.kind).then_some(Indexing::Second(to))
}

//! The laws of the objects that legal histories placed, for every preference.

ghost use Rattle.placed_objects.specs.Placed.{OneNamedLaw, PlacedLaw};

use heap_model::law_apart;

/// The objects that a legal history placed are those of the heap that it leaves.
pub fn law_placed()
    ensures { PlacedLaw }
{}

/// A word names at most one object of a legal history by an anchor.
pub fn law_one_named()
    ensures { OneNamedLaw }
{
    law_apart();
}

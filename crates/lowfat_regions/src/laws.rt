//! What holds of slots and addresses.

ghost use Rattle.lowfat_regions.specs.Regions.{SlotsLaw};

/// Each address of a slot, that one past the end of its object among them, is in that slot alone.
pub fn law_slots()
    ensures { SlotsLaw }
{}

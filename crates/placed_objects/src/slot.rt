//! Slots by their regions and numbers.

ghost use Rattle.std.specs.Prelude.{◌<◌};
ghost use Rattle.lowfat_regions.specs.Regions.{IsRegion, slots};

/// A slot of a region from 1 to 27.
#[derive(Clone, Copy, PartialEq, Eq)]
pub struct Slot {
    pub region: u32,
    pub number: u32,
    ghost in_regions: { IsRegion region },
    ghost in_slots: { number < slots region },
}

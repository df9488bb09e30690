//! How many objects a region makes, and how far an address lies in one.

ghost use Rattle.std.specs.Prelude.{◌≡◌, ◌<◌, ◌^◌};
ghost use Rattle.heap_model.specs.Objects as spec;
ghost use Rattle.lowfat_regions.specs.Regions.{IsRegion, slots};

use lowfat_regions::object_address;

/// How many objects a region makes at most: as many as versions tell apart.
pub const MAX_OBJECTS: u32 = (1 << 24) - 1;

/// How many addresses a word can have.
const ADDRESSES: u64 = 1 << 40;

/// How many bytes an address is past the first byte of the object in a slot of a region from 1 to 27, modulo 2^40.
#[tactic(auto, unfolding(crate::specs::Objects::offset_in))]
pub fn offset_of(region: u32, slot: u32, address: u64) -> u64
    requires region { IsRegion region }
    requires slot { slot < slots region }
    requires address { address < 2 ^ 40 }
    ensures { result ≡ spec.offset_in (record { region = region; number = slot }) address }
{
    (address + ADDRESSES - object_address(region, slot)) % ADDRESSES
}

//! The regions from 1 to 27: the bytes of their slots, and which is that of a size or of an address.

ghost use Rattle.std.specs.Prelude.{◌≡◌, ◌+◌, ◌≤◌, ◌^◌, ◌↔◌, IsSome, IfSome};
ghost use Rattle.lowfat_regions.specs.Regions as spec;
ghost use Rattle.lowfat_regions.specs.Regions.{IsRegion, header_bytes, max_object_bytes};
ghost use Rattle.lowfat_regions.specs.Shapes.{HasNoRoomBefore};

use crate::shapes::shape_of;

/// How many regions there are, numbered from 1 on.
pub const REGIONS: u32 = 27;

/// The bytes of an object's header, before its first byte.
pub const HEADER_BYTES: u64 = 16;

/// The bytes of the largest object.
pub const MAX_OBJECT_BYTES: u64 = 1_048_559;

/// The size in bytes of the slots of a region.
pub fn size_of_region(region: u32) -> u64
    requires { IsRegion region }
    ensures value { result ≡ spec.size_of region }
    ensures range { (32 ≤ result) × (result ≤ 2 ^ 20) }
{
    shape_of(region).size
}

/// How many slots a region has.
pub fn slots_of(region: u32) -> u32
    requires { IsRegion region }
    ensures { result ≡ spec.slots region }
{
    shape_of(region).slots
}

/// The region of an address, if it is in one.
#[tactic(auto, unfolding(crate::specs::Regions::region_of))]
pub fn region_of(addr: u64) -> Option<u32>
    ensures value { result ≡ spec.region_of addr }
    ensures range { IfSome result IsRegion }
{
    let region = addr >> 32;
    if 0 < region && region <= u64::from(REGIONS) {
        Some(region as u32)
    } else {
        None
    }
}

/// The first region whose slots have so many bytes, for which halving the regions takes five steps at most.
fn first_with_room(bytes: u64) -> u32
    requires { bytes ≤ max_object_bytes + header_bytes + 1 }
    ensures region { IsRegion result }
    ensures room { bytes ≤ spec.size_of result }
    ensures first { HasNoRoomBefore bytes result }
{
    let mut low = 1;
    let mut high = REGIONS;
    while low < high {
        let middle = (low + high) / 2;
        if size_of_region(middle) < bytes {
            low = middle + 1;
        } else {
            high = middle;
        }
    }
    low
}

/// The region for an object of `size` bytes: the first with room for its header and one byte past it.
#[tactic(auto, using(crate::proofs::Classes::class_is, crate::proofs::Classes::class_of_room, crate::proofs::Classes::class_of_none))]
pub fn class_of(size: u64) -> Option<u32>
    ensures value { result ≡ spec.class_of size }
    ensures room { IsSome result ↔ (size ≤ max_object_bytes) }
    ensures range { IfSome result IsRegion }
{
    if size > MAX_OBJECT_BYTES {
        return None;
    }
    Some(first_with_room(size + HEADER_BYTES + 1))
}

//! Slots and their addresses.

ghost use Rattle.std.specs.Prelude.{◌≡◌, ◌+◌, ◌-◌, ◌*◌, ◌/◌, ◌%◌, ◌<◌, ◌≤◌, ◌^◌, IsSome, Some};
ghost use Rattle.lowfat_regions.specs.Regions as spec;
ghost use Rattle.lowfat_regions.specs.Regions.{IsRegion, slots};
ghost use Rattle.lowfat_regions.specs.Shapes as shapes;

use crate::regions::{HEADER_BYTES, region_of};
use crate::shapes::{Shape, shape_of};

/// More than the slots of a region and one slot past them have together.
const NEAR_BYTES: u64 = 1 << 25;

/// The bits of a reciprocal before its point.
const RECIPROCAL_BITS: u32 = 40;

/// The multiple of the size of its region's slots at or below an address.
#[tactic(auto, unfolding(crate::specs::Regions::slot_base))]
pub fn slot_base(addr: u64) -> u64
    requires { IsSome (spec.region_of addr) }
    ensures { result ≡ spec.slot_base addr }
{
    match region_of(addr) {
        Some(region) => base_in_region(region, addr),
        None => 0,
    }
}

/// The same where the region is known. Near the region's slots it divides by the reciprocal.
fn base_in_region(region: u32, addr: u64) -> u64
    requires { IsRegion region }
    ensures { result ≡ spec.base_in (Some region) addr }
{
    let shape = shape_of(region);
    if addr < shape.first {
        return base_outside_slots(shape.size, addr);
    }
    let past = addr - shape.first;
    if past >= NEAR_BYTES {
        return base_outside_slots(shape.size, addr);
    }
    shape.first + slots_before(shape, region, past) * shape.size
}

/// The same for an address far from the slots of its region, which no object has: by a division.
#[cold]
fn base_outside_slots(size: u64, addr: u64) -> u64
    requires { 0 < size }
    ensures { result ≡ addr - addr % size }
{
    addr - addr % size
}

/// How many slots of a region there are before so many bytes: a division by the bytes of a slot.
fn slots_before(shape: Shape, region: u32, bytes: u64) -> u64
    requires region { IsRegion region }
    requires shape { shape ≡ shapes.shape_of region }
    requires few { bytes < 2 ^ 25 }
    ensures { result ≡ bytes / spec.size_of region }
{
    (bytes * shape.reciprocal) >> RECIPROCAL_BITS
}

/// The number of the slot of an address in its region, and none where the address is in no slot.
#[tactic(auto, unfolding(crate::specs::Regions::slot_of, crate::specs::Regions::slot_in))]
pub fn slot_number(addr: u64) -> Option<u32>
    ensures { result ≡ spec.slot_number addr }
{
    let region = region_of(addr)?;
    let shape = shape_of(region);
    if addr < shape.first {
        return None;
    }
    let past = addr - shape.first;
    if past >= NEAR_BYTES {
        return None;
    }
    let number = slots_before(shape, region, past);
    if number < u64::from(shape.slots) {
        Some(number as u32)
    } else {
        None
    }
}

/// Where a slot of a region begins.
#[tactic(auto, using(crate::proofs::Addresses::slot_within), unfolding(crate::specs::Regions::slot_address))]
pub fn slot_address(region: u32, slot: u32) -> u64
    requires region { IsRegion region }
    requires slot { slot < slots region }
    ensures value { result ≡ spec.slot_address (record { region = region; number = slot }) }
    ensures within { (region * 2 ^ 32 ≤ result) × (result + spec.size_of region ≤ (region + 1) * 2 ^ 32) }
{
    let shape = shape_of(region);
    shape.first + u64::from(slot) * shape.size
}

/// Where the object in a slot of a region begins, past the slot's header.
#[tactic(auto, using(crate::proofs::Addresses::size_ok))]
pub fn object_address(region: u32, slot: u32) -> u64
    requires region { IsRegion region }
    requires slot { slot < slots region }
    ensures value { result ≡ spec.object_address (record { region = region; number = slot }) }
    ensures within { (region * 2 ^ 32 < result) × (result < (region + 1) * 2 ^ 32) }
{
    slot_address(region, slot) + HEADER_BYTES
}

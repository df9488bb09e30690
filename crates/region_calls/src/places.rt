//! Where an access is made.

ghost use Rattle.std.specs.Prelude.{◌≡◌, ◌+◌, ◌^◌, ◌≤◌, ◌<◌, MatchResult};
ghost use Rattle.heap_model.specs.Answers as answers;
ghost use Rattle.heap_model.specs.Cells as model;
ghost use Rattle.region_calls.specs.Naming.{IsAccess, GetsReport};

use crate::naming::{NamedObject, object_named, offset_in_slot};
use heap_model::{AccessKind, Reach, ReportKind, width_of};
use object_slots::Slots;
use slot_headers::PtrWord;

/// Where an access is made: the slot of a live object, and the offset in the object.
#[derive(Clone, Copy, Debug)]
pub(crate) struct Location {
    pub(crate) slot: u32,
    pub(crate) offset: u32,
}

/// Whether `width` bytes from an address on are inside a reach.
fn is_inside(reach: &Reach, address: u64, width: u64) -> bool
    requires { address + width < 2 ^ 64 }
    ensures { result ≡ answers.is_inside reach.now address width }
{
    reach.lo <= address && address + width <= reach.hi
}

/// The report on an access to `width` bytes at an offset of an object of `size` bytes, if it may not be made. `inside`
/// says whether the bytes are inside the reach.
#[tactic(auto, unfolding(heap_model::specs::Cells::access_report))]
fn access_report(inside: bool, offset: u64, width: u64, size: u64) -> Option<ReportKind>
    requires fits { offset + width < 2 ^ 64 }
    requires width { 1 ≤ width }
    ensures { result ≡ model.access_report inside offset width size }
{
    if !inside || offset + width > size {
        Some(ReportKind::Bounds)
    } else if offset % width != 0 {
        Some(ReportKind::Align)
    } else {
        None
    }
}

/// Where an access is made, or the report on it: that the word is null, names no live object, is not inside its reach or
/// its object, or is not aligned.
pub(crate) fn locate(
    slots: &Slots,
    p: u64,
    reach: &Reach,
    kind: AccessKind,
) -> Result<Location, ReportKind>
    ensures { MatchResult result (λ at. IsAccess slots.now p reach.now kind at.slot at.offset)
        (λ report. GetsReport slots.now p reach.now kind report) }
{
    let (address, version) = PtrWord::parts(p);
    if version == 0 {
        return Err(ReportKind::Null);
    }
    let NamedObject::Live(slot, facts) = object_named(slots, reach.lo, p) else {
        return Err(ReportKind::Free);
    };
    let offset = offset_in_slot(slots, slot, p);
    let width = width_of(kind);
    let inside = is_inside(reach, address, width);
    match access_report(inside, offset, width, u64::from(facts.size)) {
        Some(report) => Err(report),
        None => Ok(Location {
            slot,
            offset: offset as u32,
        }),
    }
}

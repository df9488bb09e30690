//! What a word names among the slots of a region, and the words of objects.

ghost use Rattle.std.specs.Prelude.{◌≡◌, ◌+◌, ◌*◌, ◌^◌, ◌<◌, ◌==◌, ℕ, false, Some, length, MatchOption};
ghost use Rattle.heap_model.specs.Objects.{offset_in};
ghost use Rattle.lowfat_regions.specs.Regions as regions;
ghost use Rattle.object_slots.specs.SlotStates.{state_at};
ghost use Rattle.region_calls.specs.Naming.{IsInSlot, Names, NamesNone, nth_slot};
ghost use Rattle.slot_headers.specs.Words.{address_of, version_of};

use heap_model::offset_of;
use lowfat_regions::{object_address, region_of, slot_number};
use object_slots::{Facts, Slots};
use slot_headers::{PtrWord, law_words};

/// What a word names: no object, a dead one by its slot, or the live one of a slot, with what is known of it.
#[derive(Clone, Copy, Debug)]
pub(crate) enum NamedObject {
    Nothing,
    Dead(u32),
    Live(u32, Facts),
}

/// The slot of an address, if it was taken.
fn taken_slot(slots: &Slots, anchor: u64) -> Option<u32>
    ensures { MatchOption result ((word : ℕ) → NamesNone slots.now anchor word) (λ slot. IsInSlot slots.now anchor slot) }
{
    let region = region_of(anchor)?;
    let slot = slot_number(anchor)?;
    if region != slots.region() {
        return None;
    }
    if slot >= slots.slot_count() {
        return None;
    }
    Some(slot)
}

/// What a word that is not null names by an anchor address.
pub(crate) fn object_named(slots: &Slots, anchor: u64, word: u64) -> NamedObject
    requires { (version_of word == 0) ≡ false }
    ensures { Names slots.now anchor word result }
{
    let Some(slot) = taken_slot(slots, anchor) else {
        return NamedObject::Nothing;
    };
    let (_, version) = PtrWord::parts(word);
    let last = slots.version(slot);
    if version > last {
        return NamedObject::Nothing;
    }
    if version < last {
        return NamedObject::Dead(slot);
    }
    match slots.object(slot) {
        Some(facts) => NamedObject::Live(slot, facts),
        None => NamedObject::Dead(slot),
    }
}

/// How far a word is past the first byte of the object of a slot.
pub(crate) fn offset_in_slot(slots: &Slots, slot: u32, word: u64) -> u64
    requires { slot < length slots.now.states }
    ensures value { result ≡ offset_in (nth_slot slots.now slot) (address_of word) }
    ensures bound { result < 2 ^ 40 }
{
    object_slots::law_slots(slots);
    let (address, _) = PtrWord::parts(word);
    offset_of(slots.region(), slot, address)
}

/// The address of the first byte of the object of a slot.
pub(crate) fn first_byte_of(slots: &Slots, slot: u32) -> u64
    requires { slot < length slots.now.states }
    ensures value { result ≡ regions.object_address (nth_slot slots.now slot) }
    ensures bound { result < 28 * 2 ^ 32 }
{
    object_slots::law_slots(slots);
    object_address(slots.region(), slot)
}

/// The word of the first byte of the last object of a slot.
pub(crate) fn word_of(slots: &Slots, slot: u32) -> u64
    requires { slot < length slots.now.states }
    ensures address { address_of result ≡ regions.object_address (nth_slot slots.now slot) }
    ensures slot { regions.slot_of (address_of result) ≡ Some (nth_slot slots.now slot) }
    ensures version { version_of result ≡ (state_at slots.now.states slot).versions }
{
    lowfat_regions::law_slots();
    object_slots::law_slots(slots);
    law_words();
    PtrWord::pack(first_byte_of(slots, slot), slots.version(slot))
}

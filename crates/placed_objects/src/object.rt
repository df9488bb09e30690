//! The objects that a history placed, and which of them a word names.

ghost use Rattle.std.specs.Prelude.{◌≡◌, ◌∷◌, [], option_map, find, Some};
ghost use Rattle.std.specs.List.{filter_map};
ghost use Rattle.heap_model.specs.Answers.{is_at};
ghost use Rattle.lowfat_regions.specs.Regions as regions;
ghost use Rattle.placed_objects.specs.Placed as spec;
ghost use Rattle.placed_objects.specs.Meant.{slot_name, name_of};

use crate::slot::Slot;
use heap_model::{Call, Entry, History, Reply};
use lowfat_regions::{region_of, slot_number};
use slot_headers::PtrWord;

/// An object: its slot, its version there, and the worker and the number of the call that placed it.
#[derive(Clone, Copy)]
pub struct Object {
    pub slot: Slot,
    pub version: u32,
    pub worker: u32,
    pub number: u64,
}

/// The slot that an address is in.
fn slot_of(address: u64) -> Option<Slot>
    ensures { option_map slot_name result ≡ regions.slot_of address }
{
    let region = region_of(address)?;
    let number = slot_number(address)?;
    Some(Slot { region, number })
}

/// The object that an entry placed.
fn object_of(entry: &Entry) -> Option<Object>
    ensures { option_map name_of result ≡ spec.placed_name entry.now }
{
    match (entry.call, entry.reply) {
        (Call::Alloc { .. }, Reply::Placed(word)) => {
            let (address, version) = PtrWord::parts(word);
            let slot = slot_of(address)?;
            Some(Object {
                slot,
                version,
                worker: entry.worker,
                number: entry.number,
            })
        }
        _ => None,
    }
}

/// The object that an entry placed, if it is in this slot and has this version.
fn object_in(entry: &Entry, slot: Slot, version: u32) -> Option<Object>
    ensures { option_map name_of result ≡ find (is_at (Some (slot_name slot)) version) (filter_map spec.placed_name (entry.now ∷ [])) }
{
    let object = object_of(entry)?;
    if object.slot == slot && object.version == version {
        Some(object)
    } else {
        None
    }
}

/// The object that a word names by an anchor, if the history placed it.
pub fn object_named(history: &History, anchor: u64, word: u64) -> Option<Object>
    ensures { option_map name_of result ≡ spec.object_named history.now.entries anchor word }
{
    let slot = slot_of(anchor)?;
    let (_, version) = PtrWord::parts(word);
    for at in 0..history.len() {
        let found = object_in(&history.get(at), slot, version);
        if found.is_some() {
            return found;
        }
    }
    None
}

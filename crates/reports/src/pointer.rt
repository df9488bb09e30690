//! Where a pointer is: the object that it names, and the offset in it.

ghost use Rattle.std.specs.Prelude.{◌≡◌, ◌++◌, ◌<◌, ◌^◌, OnOk, option_map};
ghost use Rattle.reports.specs.Objects as spec;
ghost use Rattle.placed_objects.specs.Meant.{name_of};

use heap_model::{Reach, offset_of};
use placed_objects::Object;
use plain_meaning::Text;
use slot_headers::PtrWord;
use std::alloc::{AllocError, Global};

/// The first address that no word has, and the offsets' modulus.
const ADDRESSES: i64 = 1 << 40;

/// How far a word's address is past the first byte of an object, or past address 0, modulo 2^40.
#[tactic(auto, using(crate::proofs::Distances::address_below, crate::proofs::Distances::offset_below))]
fn distance(object: Option<Object>, word: u64) -> u64
    ensures exact { result ≡ spec.distance (option_map name_of object) word }
    ensures below { result < 2 ^ 40 }
{
    let (address, _) = PtrWord::parts(word);
    match object {
        Some(object) => offset_of(object.slot.region, object.slot.number, address),
        None => address,
    }
}

/// The same as a signed offset.
fn offset(object: Option<Object>, word: u64) -> i64
    ensures { result ≡ spec.signed_offset (spec.distance (option_map name_of object) word) }
{
    let past = distance(object, word) as i64;
    if past < ADDRESSES / 2 {
        past
    } else {
        past - ADDRESSES
    }
}

fn append_offset(
    alloc: Global,
    to: &mut Text,
    object: Option<Object>,
    word: u64,
) -> Result<(), AllocError>
    ensures { OnOk result (to.new ≡ to.old ++ spec.offset_text (option_map name_of object) word) }
{
    to.append(offset(object, word).to_string(alloc)?.as_bytes())
}

fn append_object(alloc: Global, to: &mut Text, object: Option<Object>) -> Result<(), AllocError>
    ensures { OnOk result (to.new ≡ to.old ++ spec.object_text (option_map name_of object)) }
{
    match object {
        None => to.append(b"none"),
        Some(object) => {
            to.append(b"object ")?;
            to.append(object.worker.to_string(alloc)?.as_bytes())?;
            to.append(b"#")?;
            to.append(object.number.to_string(alloc)?.as_bytes())
        }
    }
}

/// Adds the object and the offset of a word's address in it.
pub fn append_pointer(
    alloc: Global,
    to: &mut Text,
    object: Option<Object>,
    word: u64,
) -> Result<(), AllocError>
    ensures { OnOk result (to.new ≡ to.old ++ spec.pointer_text (option_map name_of object) word) }
{
    append_object(alloc, to, object)?;
    to.append(b" offset ")?;
    append_offset(alloc, to, object, word)
}

/// Adds a reach as offsets.
pub fn append_bounds(
    alloc: Global,
    to: &mut Text,
    object: Option<Object>,
    reach: Reach,
) -> Result<(), AllocError>
    ensures { OnOk result (to.new ≡ to.old ++ spec.bounds_text (option_map name_of object) reach) }
{
    to.append(b" bounds ")?;
    append_offset(alloc, to, object, reach.lo)?;
    to.append(b" ")?;
    append_offset(alloc, to, object, reach.hi)
}

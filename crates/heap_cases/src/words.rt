//! The words of a step: numbers, pointers, reaches, kinds and values.

use case_list::number;
use heap_model::{AccessKind, Reach, Value};
use lowfat_regions::{REGIONS, object_address, slots_of};
use slot_headers::PtrWord;

/// How many addresses a pointer can have.
const ADDRESSES: u64 = 1 << 40;

/// How many versions a pointer can have.
const VERSIONS: u32 = 1 << 24;

/// A word, and what follows it.
pub fn split(text: &str) -> (&str, &str) {
    text.split_once(' ').unwrap_or((text, ""))
}

/// The address of the first byte of the object in a slot, if there is that slot.
pub fn first_byte(region: u32, slot: u32) -> Option<u64> {
    if region < 1 || region > REGIONS {
        return None;
    }
    if slot >= slots_of(region) {
        return None;
    }
    Some(object_address(region, slot))
}

/// A number of 64 bits: a decimal one, one behind `-`, or one of base 16 behind `0x`.
pub fn bits(text: &str) -> Option<u64> {
    if let Some(digits) = text.strip_prefix("0x") {
        return u64::from_str_radix(digits, 16).ok();
    }
    if let Some(digits) = text.strip_prefix('-') {
        return Some(digits.parse::<u64>().ok()?.wrapping_neg());
    }
    text.parse::<u64>().ok()
}

/// A version, and how far the pointer is behind the first byte: `VERSION`, `VERSION+COUNT` or `VERSION-COUNT`.
fn version_and_offset(text: &str) -> Option<(u32, u64)> {
    if let Some((version, count)) = text.split_once('+') {
        return Some((number(version), bits(count)?));
    }
    if let Some((version, count)) = text.split_once('-') {
        return Some((number(version), bits(count)?.wrapping_neg()));
    }
    Some((number(text), 0))
}

/// A pointer: `SLOTvVERSION` with an offset behind it, or the number of its word.
pub fn pointer(region: u32, text: &str) -> Option<u64> {
    let Some((slot, rest)) = text.split_once('v') else {
        return bits(text);
    };
    let first = first_byte(region, number(slot))?;
    let (version, offset) = version_and_offset(rest)?;
    let address = first.wrapping_add(offset) % ADDRESSES;
    if version >= VERSIONS {
        return None;
    }
    Some(PtrWord::pack(address, version))
}

/// A reach by offsets in the object of a slot, `SLOT[FROM..TO]`, or by addresses, `FROM..TO`.
pub fn reach(region: u32, text: &str) -> Option<Reach> {
    let (first, ends) = match text.split_once('[') {
        Some((slot, ends)) => (first_byte(region, number(slot))?, ends.strip_suffix(']')?),
        None => (0, text),
    };
    let (lo, hi) = ends.split_once("..")?;
    Some(Reach {
        lo: first.wrapping_add(bits(lo)?),
        hi: first.wrapping_add(bits(hi)?),
    })
}

/// The kind of an access.
pub fn kind(text: &str) -> Option<AccessKind> {
    match text {
        "i8" => Some(AccessKind::I8),
        "u8" => Some(AccessKind::U8),
        "i16" => Some(AccessKind::I16),
        "u16" => Some(AccessKind::U16),
        "i32" => Some(AccessKind::I32),
        "u32" => Some(AccessKind::U32),
        "i64" => Some(AccessKind::I64),
        "u64" => Some(AccessKind::U64),
        "ptr" => Some(AccessKind::Ptr),
        "word" => Some(AccessKind::Word),
        _ => None,
    }
}

/// A value: a plain number, or a pointer behind `&`.
pub fn value(region: u32, text: &str) -> Option<Value> {
    match text.strip_prefix('&') {
        Some(word) => Some(Value {
            bits: pointer(region, word)?,
            pointer: true,
        }),
        None => Some(Value {
            bits: bits(text)?,
            pointer: false,
        }),
    }
}

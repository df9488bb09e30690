//! What comes of a call, as text. Pointers and bounds are written as in steps.

use crate::region::Answer;
use crate::words::first_byte;
use heap_model::{Reach, Reply, Value};
use lowfat_regions::{region_of, slot_number};
use slot_headers::PtrWord;
use std::alloc::{AllocError, Global};

/// The slot of an address in a region, and the address of its object's first byte.
fn place_in(region: u32, address: u64) -> Option<(u32, u64)> {
    let slot = slot_number(address)?;
    let first = first_byte(region, slot)?;
    if region_of(address) == Some(region) {
        Some((slot, first))
    } else {
        None
    }
}

/// How far a pointer is behind the first byte, if it is not there.
fn offset_text(alloc: Global, offset: u64) -> Result<String, AllocError> {
    if offset == 0 {
        Ok(String::new(alloc))
    } else if offset >> 63 == 0 {
        format!(in alloc; "+{offset}")
    } else {
        format!(in alloc; "-{}", offset.wrapping_neg())
    }
}

/// A pointer by its slot, its version and its offset, or the number of its word.
pub fn pointer_text(alloc: Global, region: u32, word: u64) -> Result<String, AllocError> {
    let (address, version) = PtrWord::parts(word);
    match place_in(region, address) {
        Some((slot, first)) => {
            let offset = offset_text(alloc, address.wrapping_sub(first))?;
            format!(in alloc; "{slot}v{version}{offset}")
        }
        None => format!(in alloc; "0x{word:x}"),
    }
}

fn reach_text(alloc: Global, region: u32, reach: Reach) -> Result<String, AllocError> {
    match place_in(region, reach.lo) {
        Some((slot, first)) => {
            let lo = reach.lo.wrapping_sub(first);
            let hi = reach.hi.wrapping_sub(first);
            format!(in alloc; "{slot}[{lo}..{hi}]")
        }
        None => format!(in alloc; "0x{:x}..0x{:x}", reach.lo, reach.hi),
    }
}

fn value_text(alloc: Global, region: u32, value: Value) -> Result<String, AllocError> {
    if value.pointer {
        let pointer = pointer_text(alloc, region, value.bits)?;
        format!(in alloc; "&{pointer}")
    } else {
        format!(in alloc; "0x{:x}", value.bits)
    }
}

fn reply_text(alloc: Global, region: u32, reply: Reply) -> Result<String, AllocError> {
    match reply {
        Reply::Placed(word) => {
            let pointer = pointer_text(alloc, region, word)?;
            format!(in alloc; "placed {pointer}")
        }
        Reply::NoSlot => String::from_str(alloc, "no slot"),
        Reply::Done => String::from_str(alloc, "done"),
        Reply::Found(reach) => {
            let reach = reach_text(alloc, region, reach)?;
            format!(in alloc; "found {reach}")
        }
        Reply::Value(value) => {
            let value = value_text(alloc, region, value)?;
            format!(in alloc; "value {value}")
        }
        Reply::Report(report) => format!(in alloc; "{report:?}"),
    }
}

/// What comes of a call on the heap of a region.
pub fn answer_text(alloc: Global, region: u32, answer: Answer) -> Result<String, AllocError> {
    match answer {
        Answer::Replied(reply) => reply_text(alloc, region, reply),
        Answer::Elsewhere(Some(other)) => format!(in alloc; "region {other}"),
        Answer::Elsewhere(None) => String::from_str(alloc, "no region"),
        Answer::Unfit => String::from_str(alloc, "unfit"),
        Answer::Untyped => String::from_str(alloc, "no type"),
    }
}

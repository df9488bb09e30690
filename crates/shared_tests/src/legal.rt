//! Whether a history is one of the typed heap, told plainly. It knows the calls of these tests: objects are made of
//! characters, accesses are of their first eight bytes, and so few objects of a region end that no slot comes again.

use heap_model::{Call, Entry, History, Reach, Reply, ReportKind, Value, region_for};
use slot_headers::PtrWord;
use std::alloc::{AllocError, Global};

/// An object by its word, and its first eight bytes as a number.
#[derive(Clone, Copy)]
struct Object {
    word: u64,
    size: u64,
    is_live: bool,
    first: u64,
}

/// The object that a word names.
fn found(objects: &[Object], word: u64) -> Option<Object> {
    for object in objects {
        if object.word == word {
            return Some(*object);
        }
    }
    None
}

/// The object that a word names, if it lives.
fn live(objects: &[Object], word: u64) -> Option<Object> {
    match found(objects, word) {
        Some(object) if object.is_live => Some(object),
        _ => None,
    }
}

/// Writes what is known of an object.
fn change(objects: &mut [Object], new: Object) {
    for object in objects.iter_mut() {
        if object.word == new.word {
            *object = new;
        }
    }
}

/// The bounds of an object.
fn bounds(object: Object) -> Reach {
    let (lo, _) = PtrWord::parts(object.word);
    let hi = lo.saturating_add(object.size);
    Reach { lo, hi }
}

/// A word that an allocation may answer: the first version of a slot of the region that had no object.
fn may_place(objects: &[Object], region: u32, word: u64) -> bool {
    let (address, version) = PtrWord::parts(word);
    address >> 32 == u64::from(region) && version == 1 && found(objects, word).is_none()
}

/// What an access answers that reads the first eight bytes.
fn loaded(object: Object) -> Reply {
    Reply::Value(Value {
        bits: object.first,
        pointer: false,
    })
}

/// What the heap answers to a call on an object that lives, and the object afterwards.
fn at_live(object: Object, call: &Call) -> Option<(Reply, Object)> {
    match *call {
        Call::Check { .. } => Some((Reply::Found(bounds(object)), object)),
        Call::Load { .. } => Some((loaded(object), object)),
        Call::Store { value, .. } => {
            let first = value.bits;
            Some((Reply::Done, Object { first, ..object }))
        }
        Call::Add { value, .. } => {
            let first = object.first.wrapping_add(value);
            Some((loaded(object), Object { first, ..object }))
        }
        Call::Free { .. } => {
            let is_live = false;
            Some((Reply::Done, Object { is_live, ..object }))
        }
        Call::Alloc { .. } => None,
    }
}

/// The word of a call that names an object.
fn word_of(call: &Call) -> Option<u64> {
    match *call {
        Call::Check { p, .. }
        | Call::Load { p, .. }
        | Call::Store { p, .. }
        | Call::Add { p, .. }
        | Call::Free { p, .. } => Some(p),
        Call::Alloc { .. } => None,
    }
}

/// What the heap answers to a call that names no object that lives.
fn at_none(call: &Call) -> Reply {
    match *call {
        Call::Free { .. } => Reply::Report(ReportKind::DoubleFree),
        _ => Reply::Report(ReportKind::Free),
    }
}

/// Whether an entry goes on from these objects, and they are then those behind it.
fn goes_on(objects: &mut Vec<Object>, entry: &Entry) -> Result<bool, AllocError> {
    if let (Call::Alloc { size, .. }, Reply::Placed(word)) = (entry.call, entry.reply) {
        if !may_place(objects.as_slice(), entry.region, word) {
            return Ok(false);
        }
        objects.push(Object {
            word,
            size,
            is_live: true,
            first: 0,
        })?;
        return Ok(true);
    }
    let Some(word) = word_of(&entry.call) else {
        return Ok(false);
    };
    let Some(object) = live(objects.as_slice(), word) else {
        return Ok(entry.reply == at_none(&entry.call));
    };
    let Some((reply, after)) = at_live(object, &entry.call) else {
        return Ok(false);
    };
    change(objects.as_mut_slice(), after);
    Ok(entry.reply == reply)
}

/// Whether each entry goes on from those before it, is of its call's region, and comes by its stamp and its region behind
/// the one before.
pub fn is_legal(alloc: Global, history: &History) -> Result<bool, AllocError> {
    let mut objects = Vec::new(alloc);
    let mut last = (0u64, 0u32);
    for at in 0..history.len() {
        let entry = history.get(at);
        let place = (entry.stamp, entry.region);
        if place <= last || region_for(&entry.call) != Some(entry.region) {
            return Ok(false);
        }
        if !goes_on(&mut objects, &entry)? {
            return Ok(false);
        }
        last = place;
    }
    Ok(true)
}

/// How many calls of a worker there are, if they are numbered from 0 on.
pub fn calls_of(history: &History, worker: u32) -> Option<u64> {
    let mut count = 0u64;
    for at in 0..history.len() {
        let entry = history.get(at);
        if entry.worker == worker {
            if entry.number != count {
                return None;
            }
            count = count.saturating_add(1);
        }
    }
    Some(count)
}

/// The reply of the last entry.
pub fn last_reply(history: &History) -> Option<Reply> {
    let count = history.len();
    if count == 0 {
        return None;
    }
    Some(history.get(count - 1).reply)
}

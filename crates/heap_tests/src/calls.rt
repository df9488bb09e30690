//! Calls and replies, and histories of them.

use c_types::TypeNo;
use heap_model::{
    AccessKind, Call, Entry, History, Reach, Reply, ReportKind, Value, fits, region_for, suits,
};
use std::alloc::{AllocError, Global};
use std::test::Fail;

const INT: TypeNo = 6;

/// The first byte of the first object of region 1, past its header.
const FIRST: u64 = 0x1_0000_0010;

/// A word into region 3.
const FAR: u64 = 0x103_0000_0000;

/// The first eight bytes of that object.
const WHOLE: Reach = Reach {
    lo: FIRST,
    hi: FIRST + 8,
};

const NULL: Reply = Reply::Report(ReportKind::Null);

const DOUBLE_FREE: Reply = Reply::Report(ReportKind::DoubleFree);

const POINTER_BYTES: Reply = Reply::Report(ReportKind::PointerBytes);

macro_rules! alloc {
    ($elem:expr, $size:expr, $fixed:expr) => {
        Call::Alloc {
            elem: $elem,
            size: $size,
            fixed: $fixed,
        }
    };
}

macro_rules! free {
    ($p:expr) => {
        Call::Free {
            p: $p,
            fixed: false,
        }
    };
}

macro_rules! check {
    ($p:expr, $want:expr) => {
        Call::Check {
            p: $p,
            want: $want,
        }
    };
}

macro_rules! load {
    ($p:expr, $reach:expr, $kind:ident) => {
        Call::Load {
            p: $p,
            reach: $reach,
            kind: AccessKind::$kind,
        }
    };
}

macro_rules! store {
    ($p:expr, $reach:expr, $kind:ident, $bits:expr, $pointer:expr) => {
        Call::Store {
            p: $p,
            reach: $reach,
            kind: AccessKind::$kind,
            value: Value {
                bits: $bits,
                pointer: $pointer,
            },
        }
    };
}

macro_rules! add {
    ($p:expr, $reach:expr, $kind:ident, $value:expr) => {
        Call::Add {
            p: $p,
            reach: $reach,
            kind: AccessKind::$kind,
            value: $value,
        }
    };
}

macro_rules! value {
    ($bits:expr, $pointer:expr) => {
        Reply::Value(Value {
            bits: $bits,
            pointer: $pointer,
        })
    };
}

/// Calls with their regions, and whether the heap takes them.
static REGIONS: [(Call, Option<u32>, bool); 17] = [
    (alloc!(INT, 15, false), Some(1), true),
    (alloc!(INT, 16, false), Some(2), true),
    (alloc!(INT, 1_048_559, false), Some(27), true),
    (alloc!(INT, 1_048_560, false), None, true),
    (free!(0), Some(1), true),
    (free!(FAR), Some(3), true),
    (check!(FAR, INT), Some(3), true),
    (load!(FAR, WHOLE, Ptr), Some(1), true),
    (store!(FAR, WHOLE, Ptr, 0, false), Some(1), true),
    (store!(FAR, WHOLE, Ptr, 1, false), Some(1), false),
    (store!(FAR, WHOLE, Ptr, FAR, true), Some(1), true),
    (store!(FAR, WHOLE, Word, FAR, true), Some(1), true),
    (store!(FAR, WHOLE, I64, FAR, true), Some(1), false),
    (store!(FAR, WHOLE, Word, 1, false), Some(1), true),
    (add!(FAR, WHOLE, I8, 1), Some(1), true),
    (add!(FAR, WHOLE, Ptr, 1), Some(1), false),
    (add!(FAR, WHOLE, Word, 1), Some(1), false),
];

/// Replies, and whether they suit the call.
static FORMS: [(Call, Reply, bool); 17] = [
    (alloc!(INT, 8, false), Reply::Placed(FAR), true),
    (alloc!(INT, 8, false), Reply::Placed(FIRST), false),
    (alloc!(INT, 8, false), Reply::Done, false),
    (free!(FAR), DOUBLE_FREE, true),
    (free!(FAR), NULL, false),
    (load!(FAR, WHOLE, U8), value!(255, false), true),
    (load!(FAR, WHOLE, U8), value!(256, false), false),
    (load!(FAR, WHOLE, I8), value!(255, false), false),
    (
        load!(FAR, WHOLE, I8),
        value!(0xffff_ffff_ffff_ffff, false),
        true,
    ),
    (load!(FAR, WHOLE, Ptr), value!(1, false), false),
    (load!(FAR, WHOLE, I64), value!(FAR, true), false),
    (load!(FAR, WHOLE, Ptr), value!(FAR, true), true),
    (store!(FAR, WHOLE, U8, 1, false), Reply::Done, true),
    (store!(FAR, WHOLE, U8, 1, false), POINTER_BYTES, false),
    (add!(FAR, WHOLE, U8, 1), POINTER_BYTES, true),
    (add!(FAR, WHOLE, U8, 1), value!(256, false), false),
    (add!(FAR, WHOLE, U8, 1), Reply::Done, false),
];

#[test]
fn calls_have_regions_and_forms(rt: HostRuntime) -> Result<(), Fail> {
    for (call, region, taken) in &REGIONS {
        assert_eq!(rt; region_for(call), *region);
        assert_eq!(rt; fits(call), *taken);
    }
    for (call, reply, suited) in &FORMS {
        assert_eq!(rt; suits(call, reply), *suited);
    }
    Ok(())
}

/// An entry that is told from others by its number.
fn numbered(number: u64) -> Entry {
    Entry {
        worker: 1,
        number,
        stamp: number,
        region: 1,
        call: free!(0),
        reply: Reply::Done,
    }
}

/// The first of so many entries of a history that does not read as it was added, by its place or in its turn.
fn first_misread(alloc: Global, count: u64) -> Result<Option<u64>, AllocError> {
    let mut history = History::new(alloc);
    for number in 0..count {
        history.room()?;
        history.push(numbered(number));
    }
    for number in 0..history.len() {
        if history.get(number) != numbered(number) {
            return Ok(Some(number));
        }
    }
    let mut left = history.into_entries();
    for number in 0..count {
        if left.take_next() != Some(numbered(number)) {
            return Ok(Some(number));
        }
    }
    Ok(left.take_next().map(|entry| entry.number))
}

#[test]
fn a_history_keeps_each_entry(rt: HostRuntime) -> Result<(), Fail> {
    assert_eq!(rt; first_misread(rt.alloc(), 0)?, None);
    assert_eq!(rt; first_misread(rt.alloc(), 1_024)?, None);
    assert_eq!(rt; first_misread(rt.alloc(), 5_000)?, None);
    Ok(())
}

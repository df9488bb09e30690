//! Clocks and merges worked out by hand.

ghost use Rattle.std.specs.Prelude.{◌≡◌, ◌≤◌, length, IfOk};
ghost use Rattle.std.specs.List.{All, AllPairs};
ghost use Rattle.heap_model.specs.Order.{StampsRise};
ghost use Rattle.clock_order.specs.Parts.{AreApart};

use crate::{merge, stamp};
use heap_model::{Call, Entry, History, Reply};
use std::alloc::{AllocError, Global};
use std::test::Fail;

// The stamps of some parts, whose regions count down to 1, and what is merged of them, each entry as its stamp and its
// region.
struct Case {
    parts: &'static [&'static [u64]],
    merged: &'static [(u64, u32)],
}

static CASES: [Case; 7] = [
    Case {
        parts: &[&[1, 3], &[2, 3]],
        merged: &[(1, 2), (2, 1), (3, 1), (3, 2)],
    },
    Case {
        parts: &[],
        merged: &[],
    },
    Case {
        parts: &[&[], &[]],
        merged: &[],
    },
    Case {
        parts: &[&[1, 5, 9]],
        merged: &[(1, 1), (5, 1), (9, 1)],
    },
    Case {
        parts: &[&[4], &[], &[2]],
        merged: &[(2, 1), (4, 3)],
    },
    Case {
        parts: &[&[5, 6], &[1, 2]],
        merged: &[(1, 1), (2, 1), (5, 2), (6, 2)],
    },
    Case {
        parts: &[&[7], &[7], &[7], &[7], &[7]],
        merged: &[(7, 1), (7, 2), (7, 3), (7, 4), (7, 5)],
    },
];

// A history of a region, of those of the stamps that rise.
fn part(alloc: Global, region: u32, stamps: &[u64]) -> Result<History, AllocError>
    ensures region { IfOk result (λ h. All (λ e. e.region ≡ region) h.entries) }
    ensures stamps { IfOk result (λ h. StampsRise h.entries) }
{
    let mut history = History::new(alloc);
    let mut last = 0;
    for stamp in stamps {
        if *stamp > last {
            history.room()?;
            history.push(Entry {
                worker: 1,
                number: history.len(),
                stamp: *stamp,
                region,
                call: Call::Free { p: 0, fixed: false },
                reply: Reply::Done,
            });
            last = *stamp;
        }
    }
    Ok(history)
}

fn parts_of(alloc: Global, stamps: &[&[u64]]) -> Result<Vec<History>, AllocError>
    requires { length stamps.now ≤ 27 }
    ensures apart { IfOk result (λ parts. AllPairs AreApart parts.items) }
    ensures stamps { IfOk result (λ parts. All (λ p. StampsRise p.entries) parts.items) }
{
    let mut parts = Vec::new(alloc);
    let mut region = stamps.len() as u32;
    for own in stamps {
        parts.push(part(alloc, region, own)?)?;
        region -= 1;
    }
    Ok(parts)
}

fn keys_of(alloc: Global, history: &History) -> Result<Vec<(u64, u32)>, AllocError> {
    let mut keys = Vec::new(alloc);
    for at in 0..history.len() {
        let entry = history.get(at);
        keys.push((entry.stamp, entry.region))?;
    }
    Ok(keys)
}

#[test]
fn parts_are_merged_by_stamp_and_region(rt: HostRuntime) -> Result<(), Fail> {
    for case in &CASES {
        assert!(rt; case.parts.len() <= 27);
        let merged = merge(rt.alloc(), parts_of(rt.alloc(), case.parts)?)?;
        assert_eq!(rt; keys_of(rt.alloc(), &merged)?.as_slice(), case.merged);
    }
    Ok(())
}

#[test]
fn a_stamp_is_above_those_of_its_worker_and_its_region(rt: HostRuntime) {
    assert_eq!(rt; stamp(0, 0), 1);
    assert_eq!(rt; stamp(5, 3), 6);
    assert_eq!(rt; stamp(3, 5), 6);
    assert_eq!(rt; stamp((1 << 63) - 1, 4), 1 << 63);
}

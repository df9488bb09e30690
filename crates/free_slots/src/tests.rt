//! Slots in the order in which they are given out, worked out by hand.

use crate::{FreeSlots, Taken};
use std::alloc::AllocError;
use std::test::Fail;

/// A call, or a run of equal calls, with its answer.
#[derive(Clone, Copy, Debug)]
enum Call {
    /// Takes a slot that was never taken.
    Fresh(u32),
    /// Takes a slot that was given back.
    Again(u32),
    /// Finds none to take.
    Full,
    Give(u32),
    /// Takes the slots from the first to the one before the second, none of which was ever taken.
    FreshRun(u32, u32),
    /// Gives the slots back from the first to the one before the second.
    GiveRun(u32, u32),
    /// Takes a slot and gives it back, so often.
    Turns(u32),
}

/// Calls on so many slots, and how many are live, made and at rest in the end.
struct Case {
    slots: u32,
    calls: &'static [Call],
    live: u32,
    made: u32,
    resting: u32,
}

/// One slot never rests. Of two slots one rests, and is not given out though the other is taken.
static FEW: [Case; 5] = [
    Case {
        slots: 0,
        calls: &[Call::Full],
        live: 0,
        made: 0,
        resting: 0,
    },
    Case {
        slots: 1,
        calls: &[
            Call::Fresh(0),
            Call::Full,
            Call::Give(0),
            Call::Again(0),
            Call::Full,
        ],
        live: 1,
        made: 1,
        resting: 0,
    },
    Case {
        slots: 2,
        calls: &[Call::Fresh(0), Call::Give(0), Call::Fresh(1), Call::Full],
        live: 1,
        made: 2,
        resting: 1,
    },
    Case {
        slots: 2,
        calls: &[
            Call::Fresh(0),
            Call::Give(0),
            Call::Fresh(1),
            Call::Give(1),
            Call::Again(0),
            Call::Full,
        ],
        live: 1,
        made: 2,
        resting: 1,
    },
    Case {
        slots: 3,
        calls: &[
            Call::FreshRun(0, 3),
            Call::Full,
            Call::GiveRun(0, 3),
            Call::Again(1),
            Call::Again(0),
            Call::Full,
        ],
        live: 2,
        made: 3,
        resting: 1,
    },
];

/// Of 16 slots 8 rest, and of 128 and more 64: a slot comes again only after as many others were given back.
static MANY: [Case; 5] = [
    Case {
        slots: 16,
        calls: &[
            Call::FreshRun(0, 8),
            Call::GiveRun(0, 8),
            Call::FreshRun(8, 16),
            Call::Full,
        ],
        live: 8,
        made: 16,
        resting: 8,
    },
    Case {
        slots: 128,
        calls: &[
            Call::FreshRun(0, 65),
            Call::GiveRun(0, 64),
            Call::Fresh(65),
            Call::Give(64),
            Call::Again(0),
            Call::Fresh(66),
        ],
        live: 3,
        made: 67,
        resting: 64,
    },
    Case {
        slots: 128,
        calls: &[
            Call::FreshRun(0, 128),
            Call::GiveRun(0, 64),
            Call::Full,
            Call::Give(64),
            Call::Again(0),
            Call::Full,
        ],
        live: 64,
        made: 128,
        resting: 64,
    },
    Case {
        slots: 65_536,
        calls: &[
            Call::FreshRun(0, 65_536),
            Call::Full,
            Call::GiveRun(0, 65_536),
            Call::Again(65_471),
            Call::Again(65_470),
        ],
        live: 2,
        made: 65_536,
        resting: 64,
    },
    Case {
        slots: 65_536,
        calls: &[Call::Turns(65_536), Call::Again(16)],
        live: 1,
        made: 65,
        resting: 64,
    },
];

/// Whether a take answers this.
fn takes(free: &mut FreeSlots, slot: u32, fresh: bool) -> Result<bool, AllocError> {
    let next = free.take()?;
    Ok(next == Some(Taken { slot, fresh }) && free.is_taken(slot))
}

/// Gives a slot back, if it is taken.
fn gives(free: &mut FreeSlots, slot: u32) -> bool {
    if !free.is_taken(slot) {
        return false;
    }
    free.give(slot);
    !free.is_taken(slot)
}

fn takes_run(free: &mut FreeSlots, first: u32, end: u32) -> Result<bool, AllocError> {
    for slot in first..end {
        if !takes(free, slot, true)? {
            return Ok(false);
        }
    }
    Ok(true)
}

fn gives_run(free: &mut FreeSlots, first: u32, end: u32) -> bool {
    for slot in first..end {
        if !gives(free, slot) {
            return false;
        }
    }
    true
}

fn turns(free: &mut FreeSlots, times: u32) -> Result<bool, AllocError> {
    for _ in 0..times {
        let Some(taken) = free.take()? else {
            return Ok(false);
        };
        if !gives(free, taken.slot) {
            return Ok(false);
        }
    }
    Ok(true)
}

/// Whether a call answers as it should.
fn answers(free: &mut FreeSlots, call: Call) -> Result<bool, AllocError> {
    match call {
        Call::Fresh(slot) => takes(free, slot, true),
        Call::Again(slot) => takes(free, slot, false),
        Call::Full => Ok(free.take()? == None),
        Call::Give(slot) => Ok(gives(free, slot)),
        Call::FreshRun(first, end) => takes_run(free, first, end),
        Call::GiveRun(first, end) => Ok(gives_run(free, first, end)),
        Call::Turns(times) => turns(free, times),
    }
}

#[test]
fn slots_come_again_after_as_many_others_were_given_back(rt: HostRuntime) -> Result<(), Fail> {
    for cases in [&FEW, &MANY] {
        for case in cases {
            let mut free = FreeSlots::new(rt.alloc(), case.slots);
            for call in case.calls {
                assert!(rt;
                    answers(&mut free, *call)?,
                    "{call:?} of {} slots",
                    case.slots
                );
            }
            assert_eq!(rt; free.live(), case.live);
            assert_eq!(rt; free.made(), case.made);
            assert_eq!(rt; free.resting(), case.resting);
        }
    }
    Ok(())
}

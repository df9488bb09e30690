use crate::counter::{ASKED, new_counter};
use crate::pairs::{close, pair};
use crate::threads::run;
use heap_model::Reply;
use region_lock::{Gate, Kept, OpenGate};
use std::sync::atomic::{AtomicU64, Ordering};
use std::test::Fail;

#[test]
fn a_step_adds_an_entry_with_the_next_stamp(rt: HostRuntime) -> Result<(), Fail> {
    let mut value = new_counter(rt.alloc(), 1);
    let entry = value.step(3, 7, 5, &ASKED)?;
    assert_eq!(rt; (entry.worker, entry.number, entry.region), (3, 7, 1));
    assert_eq!(rt; entry.stamp, 6);
    assert_eq!(rt; value.entries.len(), 1);
    Ok(())
}

#[test]
fn two_passes_make_one_call_each(rt: HostRuntime) -> Result<(), Fail> {
    let (locks, mut first, mut second) = pair(rt.alloc(), 1, 1)?;
    assert_eq!(rt;
        locks.with(&rt, &mut first, &OpenGate, 1, &ASKED)?,
        Reply::Done
    );
    assert_eq!(rt;
        locks.with(&rt, &mut second, &OpenGate, 1, &ASKED)?,
        Reply::Done
    );
    assert_eq!(rt; (first.worker(), first.made(), first.last()), (0, 1, 1));
    assert_eq!(rt; (second.worker(), second.made(), second.last()), (1, 1, 2));
    let values = close(rt.alloc(), locks, first, second)?;
    assert_eq!(rt; values.len(), 1);
    let mut seen: u64 = 0;
    for entry in &values[0].entries {
        assert_eq!(rt; (u64::from(entry.worker), entry.number), (seen, 0));
        seen = entry.stamp;
    }
    assert_eq!(rt; seen, 2);
    Ok(())
}

#[test]
fn a_pass_that_met_another_goes_on_after_its_last_stamp(rt: HostRuntime) -> Result<(), Fail> {
    let (locks, mut first, mut second) = pair(rt.alloc(), 2, 1)?;
    locks.with(&rt, &mut first, &OpenGate, 1, &ASKED)?;
    assert_eq!(rt; first.last(), 1);
    locks.meet(&mut second, &mut first);
    assert_eq!(rt; (first.last(), second.last(), second.made()), (1, 1, 0));
    locks.with(&rt, &mut second, &OpenGate, 2, &ASKED)?;
    assert_eq!(rt; second.last(), 2);
    locks.meet(&mut second, &mut first);
    assert_eq!(rt; (first.last(), second.last()), (1, 2));
    let values = close(rt.alloc(), locks, first, second)?;
    assert_eq!(rt; values.len(), 2);
    for value in &values {
        assert_eq!(rt; (value.entries.len(), value.total), (1, 1));
    }
    Ok(())
}

// Counts the calls of the gate.
#[derive(Drop)]
struct Counting {
    calls: AtomicU64,
}

impl Gate for Counting {
    fn inside(&self, _worker: u32, _region: u32) {
        self.calls.fetch_add(1, Ordering::SeqCst);
    }
}

#[test]
fn all_calls_of_two_eight_and_sixteen_threads_are_made(rt: HostRuntime) -> Result<(), Fail> {
    for (regions, passes, turns) in [(1, 2, 1000), (3, 8, 150), (27, 16, 54)] {
        let gate = Counting {
            calls: AtomicU64::new(0),
        };
        let (values, made) = run(&rt, rt.alloc(), &gate, regions, passes, turns)?;
        let all = u64::from(passes) * u64::from(turns);
        assert_eq!(rt; made, all);
        assert_eq!(rt; gate.calls.load(Ordering::SeqCst), all);
        assert_eq!(rt; values.len(), regions as usize);
        let mut total: u64 = 0;
        for value in &values {
            assert_eq!(rt; value.entries.len() as u64, value.total);
            total = total.saturating_add(value.total);
            let mut last: u64 = 0;
            for entry in &value.entries {
                assert!(rt; entry.stamp > last);
                last = entry.stamp;
            }
        }
        assert_eq!(rt; total, all);
    }
    Ok(())
}

// Holds each of two passes inside until the other is inside for the same round.
#[derive(Drop)]
struct Meeting {
    first: AtomicU64,
    second: AtomicU64,
    seen: AtomicU64,
}

impl Gate for Meeting {
    fn inside(&self, worker: u32, region: u32) {
        let round = u64::from(region.saturating_sub(worker.min(1)));
        let (mine, other) = if worker == 0 {
            (&self.first, &self.second)
        } else {
            (&self.second, &self.first)
        };
        mine.store(round, Ordering::SeqCst);
        for _ in 0..100_000_000u32 {
            if other.load(Ordering::SeqCst) >= round {
                self.seen.fetch_add(1, Ordering::SeqCst);
                return;
            }
            std::hint::spin_loop();
        }
    }
}

#[test]
fn two_regions_are_held_at_once(rt: HostRuntime) -> Result<(), Fail> {
    let gate = Meeting {
        first: AtomicU64::new(0),
        second: AtomicU64::new(0),
        seen: AtomicU64::new(0),
    };
    let (values, made) = run(&rt, rt.alloc(), &gate, 27, 2, 26)?;
    assert_eq!(rt; (values.len(), made), (27, 52));
    assert_eq!(rt; gate.seen.load(Ordering::SeqCst), 52);
    Ok(())
}

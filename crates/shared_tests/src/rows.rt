use crate::legal::{calls_of, is_legal, last_reply};
use crate::meeting::{Stamps, run_meeting};
use crate::scripts::Script;
use crate::threads::run;
use c_types::TypeTable;
use heap_model::{History, Reply, Value};
use layout_table::Table;
use region_lock::{Gate, OpenGate};
use std::alloc::Global;
use std::process::Abort;
use std::sync::atomic::{AtomicU64, Ordering};
use std::test::Fail;

/// The table of the basic types.
fn table_of(alloc: Global) -> Result<Table, Fail> {
    let types = TypeTable::new(alloc)?;
    Ok(Table::build(alloc, &types)?)
}

/// A legal history of so many calls, in which each worker's calls are as many as its pass made.
fn is_record(
    rt: &impl Abort,
    alloc: Global,
    history: &History,
    made: &[u64],
    all: u64,
) -> Result<(), Fail> {
    assert_eq!(rt; history.len(), all);
    assert_eq!(rt; is_legal(alloc, history)?, true);
    let mut worker = 0u32;
    for count in made {
        assert_eq!(rt; calls_of(history, worker), Some(*count));
        worker = worker.saturating_add(1);
    }
    Ok(())
}

fn number(bits: u64) -> Option<Reply> {
    Some(Reply::Value(Value {
        bits,
        pointer: false,
    }))
}

#[test]
fn a_worker_makes_an_object(rt: HostRuntime) -> Result<(), Fail> {
    let table = table_of(rt.alloc())?;
    let scripts = [Script::Place];
    let (history, made) = run(&rt, rt.alloc(), &table, &OpenGate, 1, 10, &scripts)?;
    assert_eq!(rt; made.as_slice(), [0u64, 1].as_slice());
    assert_eq!(rt; history.len(), 1);
    for at in 0..history.len() {
        let entry = history.get(at);
        assert_eq!(rt; (entry.worker, entry.number, entry.region), (1, 0, 1));
        assert_eq!(rt; entry.reply, Reply::Placed(1_103_806_595_088));
    }
    Ok(())
}

#[test]
fn two_threads_add_a_thousand_times_each(rt: HostRuntime) -> Result<(), Fail> {
    let table = table_of(rt.alloc())?;
    for times in [1000, 1001] {
        let scripts = [Script::Open, Script::Add(times), Script::Look];
        let (history, made) = run(&rt, rt.alloc(), &table, &OpenGate, 2, 1000, &scripts)?;
        assert_eq!(rt; made.as_slice(), [2u64, 1000, 1000].as_slice());
        is_record(&rt, rt.alloc(), &history, made.as_slice(), 2002)?;
        assert_eq!(rt; last_reply(&history), number(2000));
    }
    Ok(())
}

#[test]
fn eight_threads_make_all_calls_in_all_regions(rt: HostRuntime) -> Result<(), Fail> {
    let table = table_of(rt.alloc())?;
    let scripts = [Script::Open, Script::All, Script::Look];
    for _turn in 0..10u32 {
        let (history, made) = run(&rt, rt.alloc(), &table, &OpenGate, 8, 1000, &scripts)?;
        is_record(&rt, rt.alloc(), &history, made.as_slice(), 2378)?;
        assert_eq!(rt; last_reply(&history), number(216));
    }
    Ok(())
}

#[test]
fn a_pass_that_met_another_goes_on_after_its_last_stamp(rt: HostRuntime) -> Result<(), Fail> {
    let table = table_of(rt.alloc())?;
    let (history, stamps) = run_meeting(&rt, rt.alloc(), &table)?;
    let wanted = Stamps {
        first: 1,
        met: 1,
        second: 2,
    };
    assert_eq!(rt; stamps, wanted);
    is_record(&rt, rt.alloc(), &history, &[1, 1], 2)?;
    let mut stamp = 0u64;
    for at in 0..history.len() {
        let entry = history.get(at);
        stamp = stamp.saturating_add(1);
        assert_eq!(rt; (entry.stamp, u64::from(entry.region)), (stamp, stamp));
    }
    Ok(())
}

// Holds each of two passes inside until the other is inside for the same round.
#[derive(Drop)]
struct Meeting {
    first: AtomicU64,
    second: AtomicU64,
    seen: AtomicU64,
}

impl Gate for Meeting {
    fn inside(&self, worker: u32, region: u32) {
        let round = u64::from(region.saturating_sub(worker.min(1)));
        let (mine, other) = if worker == 0 {
            (&self.first, &self.second)
        } else {
            (&self.second, &self.first)
        };
        mine.store(round, Ordering::SeqCst);
        for _ in 0..100_000_000u32 {
            if other.load(Ordering::SeqCst) >= round {
                self.seen.fetch_add(1, Ordering::SeqCst);
                return;
            }
            std::hint::spin_loop();
        }
    }
}

#[test]
fn two_regions_are_held_at_once(rt: HostRuntime) -> Result<(), Fail> {
    let gate = Meeting {
        first: AtomicU64::new(0),
        second: AtomicU64::new(0),
        seen: AtomicU64::new(0),
    };
    let table = table_of(rt.alloc())?;
    let scripts = [Script::Rounds];
    let (history, made) = run(&rt, rt.alloc(), &table, &gate, 1, 26, &scripts)?;
    is_record(&rt, rt.alloc(), &history, made.as_slice(), 52)?;
    assert_eq!(rt; gate.seen.load(Ordering::SeqCst), 52);
    Ok(())
}

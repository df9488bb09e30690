//! Lists of turns.

ghost use Rattle.std.specs.Prelude.{◌≡◌, ◌≤◌, ◌<◌, ◌^◌, ◌++◌, Some, IfOk, IfSome, OnOk, IsTrue, length, is_some, replicate};
ghost use Rattle.std.specs.Option.{option_map};
ghost use Rattle.effs_words.specs.Schedules as spec;

use crate::numbers::number_in;
use sqlite_items::Items;
use std::alloc::{AllocError, Global};

/// The most turns that a list says.
const MAX_TURNS: u64 = 100_000;

/// A worker's turns that stand one after another.
#[derive(Clone, Copy)]
pub struct Turns {
    pub worker: u64,
    pub times: u64,
}

/// What stands before the first byte of a sort, and what stands after it, where there is one.
#[derive(Clone, Copy)]
struct Cut<'a> {
    front: &'a [u8],
    rest: Option<&'a [u8]>,
}

fn cut_at(bytes: &[u8], mark: u8) -> Cut<'_>
    ensures front { result.front.now ≡ (spec.cut mark bytes.now).front }
    ensures rest { option_map (λ r. r.now) result.rest ≡ (spec.cut mark bytes.now).rest }
    ensures shorter { IfSome result.rest (λ r. length r.now < length bytes.now) }
{
    for (i, byte) in bytes.iter().enumerate() {
        if *byte == mark {
            return Cut {
                front: &bytes[..i],
                rest: Some(&bytes[i + 1..]),
            };
        }
    }
    Cut {
        front: bytes,
        rest: None,
    }
}

/// The turns that a part of a list says: `W` or `W*C`.
#[tactic(auto, unfolding(crate::specs::Schedules::turns_of))]
fn turns_of(part: &[u8], workers: u64) -> Option<Turns>
    ensures value { result ≡ spec.turns_of workers part.now }
    ensures known { IfSome result (λ turns. turns.worker ≤ workers) }
{
    let at_star = cut_at(part, b'*');
    let worker = number_in(at_star.front, 1, workers)?;
    let times = match at_star.rest {
        Some(times) => number_in(times, 1, MAX_TURNS)?,
        None => 1,
    };
    Some(Turns { worker, times })
}

/// Whether a word is a list of turns of so many workers, 100,000 turns at most.
#[tactic(auto, unfolding(crate::specs::Schedules::schedule_of))]
pub fn is_schedule(list: &[u8], workers: u64) -> bool
    ensures { result ≡ is_some (spec.schedule_of workers list.now) }
{
    let mut room = MAX_TURNS;
    let mut left = Some(list);
    while let Some(parts) = left {
        let at_comma = cut_at(parts, b',');
        match turns_of(at_comma.front, workers) {
            Some(turns) if turns.times <= room => room -= turns.times,
            _ => return false,
        }
        left = at_comma.rest;
    }
    true
}

/// Adds a worker's turns to a list.
fn push_turns(schedule: &mut Items<u32>, worker: u32, times: u64) -> Result<(), AllocError>
    ensures { OnOk result (schedule.new ≡ schedule.old ++ replicate times worker) }
{
    for _ in 0..times {
        schedule.push(worker)?;
    }
    Ok(())
}

/// The workers of a list of turns, in the order of their turns.
#[tactic(auto, unfolding(crate::specs::Schedules::schedule_of))]
pub fn read_schedule(alloc: Global, list: &[u8], workers: u64) -> Result<Items<u32>, AllocError>
    requires few { workers < 2 ^ 32 }
    requires sound { IsTrue (is_some (spec.schedule_of workers list.now)) }
    ensures { IfOk result (λ schedule. Some schedule ≡ spec.schedule_of workers list.now) }
{
    let mut schedule = Items::new(alloc);
    let mut room = MAX_TURNS;
    let mut left = Some(list);
    while let Some(parts) = left {
        let at_comma = cut_at(parts, b',');
        let turns = turns_of(at_comma.front, workers).unwrap();
        push_turns(&mut schedule, turns.worker as u32, turns.times)?;
        room -= turns.times;
        left = at_comma.rest;
    }
    Ok(schedule)
}

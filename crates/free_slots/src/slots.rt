//! Slots that are taken, given back, and at rest.

ghost use Rattle.std.specs.Prelude.{◌≡◌, ◌<◌, ◌≤◌, ◌↔◌, [], ◌∷◌, ◌++◌, length, IsTrue, IsNone, IfSome, IfOk, Contains, OnOk, OnErr, vec_capacity};
ghost use Rattle.std.specs.VecDeque.{deque_capacity};
ghost use Rattle.free_slots.specs.Slots.{unused, live_count, made_count, rest_limit as most_at_rest, last_resting, ready_slots, resting_slots};
ghost use Rattle.free_slots.specs.Slots.{IsTaken, IsFull, IsFree, TellsFresh, next_of, after_take, after_give};

use std::alloc::{AllocError, Global};
use std::collections::VecDeque;
use std::marker::Model;

/// The most slots that rest at a time.
const MOST_AT_REST: u32 = 64;

/// A slot that was taken.
#[derive(Clone, Copy, Debug, PartialEq, Eq)]
pub struct Taken {
    /// Its number.
    pub slot: u32,
    /// Whether it was never taken before.
    pub fresh: bool,
}

/// Which slots of a region are taken and which come next. Slots are numbered from 0 on.
///
/// A slot that was given back rests while fewer than the least of 64 and half of all slots were given back after it.
/// Each call takes constant time, but for the growth of the lists where a slot is taken for the first time.
#[derive(Drop)]
pub struct FreeSlots {
    slots: u32,
    /// Of each slot that was ever taken, whether it is taken now.
    taken: Vec<bool>,
    /// Slots given back that rest no more, the one given back last at the end.
    ready: Vec<u32>,
    /// Slots at rest, the one given back last at the back.
    resting: VecDeque<u32>,
}

impl Model for FreeSlots {
    ghost use Rattle.free_slots.specs.Slots.{Slots, slots_code};

    ghost Value = { Slots };

    ghost coded = { slots_code };

    ghost use Rattle.free_slots.specs.Fields.{slots_of, IsKept};

    ghost view = { slots_of };

    ghost invariant = { IsKept };
}

/// How many of so many slots may rest.
fn rest_limit(slots: u32) -> u32
    ensures { result ≡ most_at_rest slots }
{
    MOST_AT_REST.min(slots / 2)
}

/// Makes room for so many slots that are ready and so many that rest, as far as there is no such room yet.
fn reserve_return(
    ready: &mut Vec<u32>,
    resting: &mut VecDeque<u32>,
    most_ready: usize,
    most_resting: usize,
) -> Result<(), AllocError>
    ensures ready { ready.new.items ≡ ready.old.items }
    ensures resting { resting.new.items ≡ resting.old.items }
    ensures ready_kept { vec_capacity ready.old ≤ vec_capacity ready.new }
    ensures resting_kept { deque_capacity resting.old ≤ deque_capacity resting.new }
    ensures ready_room { OnOk result (most_ready ≤ vec_capacity ready.new) }
    ensures resting_room { OnOk result (most_resting ≤ deque_capacity resting.new) }
{
    ready.reserve(most_ready.saturating_sub(ready.len()))?;
    resting.reserve(most_resting.saturating_sub(resting.len()))?;
    Ok(())
}

/// Lays a slot to rest. Where more rest than may, the one that has rested longest is ready.
fn lay_to_rest(ready: &mut Vec<u32>, resting: &mut VecDeque<u32>, slot: u32, limit: u32)
    requires few { length resting.old.items ≤ limit }
    requires room { length ready.old.items < vec_capacity ready.old }
    requires resting_room { limit < deque_capacity resting.old }
    ensures order { ready.new.items ++ resting.new.items ≡ ready.old.items ++ resting.old.items ++ slot ∷ [] }
    ensures few { length resting.new.items ≤ limit }
    ensures full { length ready.old.items < length ready.new.items → length resting.new.items ≡ limit }
    ensures still_full { length resting.old.items ≡ limit → length resting.new.items ≡ limit }
    ensures ready_room { vec_capacity ready.new ≡ vec_capacity ready.old }
    ensures resting_room { deque_capacity resting.new ≡ deque_capacity resting.old }
{
    resting.push_back_reserved(slot);
    if resting.len() > limit as usize {
        if let Some(rested) = resting.pop_front() {
            ready.push_reserved(rested);
        }
    }
}

impl FreeSlots {
    /// So many slots, of which none was taken yet.
    pub fn new(alloc: Global, slots: u32) -> FreeSlots
        ensures { result ≡ unused slots }
    {
        FreeSlots {
            slots,
            taken: Vec::new(alloc),
            ready: Vec::new(alloc),
            resting: VecDeque::new(alloc),
        }
    }

    /// How many slots were taken at least once. These have the numbers below it.
    pub fn made(&self) -> u32
        ensures value { result ≡ made_count self.now }
        ensures most { result ≤ self.now.count }
    {
        self.taken.len() as u32
    }

    /// How many slots are at rest.
    pub fn resting(&self) -> u32
        ensures { result ≡ length (resting_slots self.now) }
    {
        self.resting.len() as u32
    }

    /// How many slots are taken.
    pub fn live(&self) -> u32
        ensures { result ≡ live_count self.now }
    {
        (self.taken.len() - self.ready.len() - self.resting.len()) as u32
    }

    /// Whether a slot is taken.
    pub fn is_taken(&self, slot: u32) -> bool
        ensures value { IsTrue result ↔ IsTaken self.now slot }
        ensures made { IsTaken self.now slot → slot < made_count self.now }
        ensures apart { IsTaken self.now slot → ¬ Contains (resting_slots self.now) slot }
    {
        self.taken.get(slot as usize).copied().unwrap_or(false)
    }

    /// Takes the next slot that was never taken.
    fn take_fresh(&mut self) -> Result<Option<Taken>, AllocError>
        requires { ready_slots self.old ≡ [] }
        ensures next { IfOk result (λ next. next ≡ next_of self.old) }
        ensures step { IfOk result (λ next. self.new ≡ after_take self.old next) }
        ensures resting { IfOk result (λ _. resting_slots self.new ≡ resting_slots self.old) }
        ensures err { OnErr result (self.new ≡ self.old) }
    {
        let made = self.taken.len();
        let slots = self.slots as usize;
        if made == slots {
            return Ok(None);
        }
        let most_resting = rest_limit(self.slots) as usize + 1;
        reserve_return(&mut self.ready, &mut self.resting, made + 1, most_resting)?;
        self.taken.push(true)?;
        Ok(Some(Taken {
            slot: made as u32,
            fresh: true,
        }))
    }

    /// Takes the slot that comes next. Room for the return of a slot is made before it is taken for the first time.
    pub fn take(&mut self) -> Result<Option<Taken>, AllocError>
        ensures next { IfOk result (λ next. next ≡ next_of self.old) }
        ensures step { IfOk result (λ next. self.new ≡ after_take self.old next) }
        ensures none { IfOk result (λ next. IsNone next ↔ IsFull self.old) }
        ensures free { IfOk result (λ next. IfSome next (λ taken. IsFree self.old taken.slot)) }
        ensures fresh { IfOk result (λ next. IfSome next (TellsFresh self.old)) }
        ensures taken { IfOk result (λ next. IfSome next (λ taken. IsTaken self.new taken.slot)) }
        ensures resting { IfOk result (λ _. resting_slots self.new ≡ resting_slots self.old) }
        ensures err { OnErr result (self.new ≡ self.old) }
    {
        match self.ready.pop() {
            Some(slot) => {
                self.taken[slot as usize] = true;
                Ok(Some(Taken { slot, fresh: false }))
            }
            None => self.take_fresh(),
        }
    }

    /// Gives a slot back, which then rests. Takes no memory.
    pub fn give(&mut self, slot: u32)
        requires { IsTaken self.old slot }
        ensures step { self.new ≡ after_give self.old slot }
        ensures resting { resting_slots self.new ≡ last_resting self.old.count (resting_slots self.old ++ slot ∷ []) }
    {
        self.taken[slot as usize] = false;
        lay_to_rest(
            &mut self.ready,
            &mut self.resting,
            slot,
            rest_limit(self.slots),
        );
    }
}

ghost use Rattle.std.specs.Prelude.{◌≡◌, ◌≤◌, ◌^◌, suc, vec_len};

use crate::about::About;
use crate::gate::Gate;
use crate::kept::Kept;
use crate::pass::Pass;
use crate::plays::{Add, Give, Order, Take, Told};
use crate::view::View;
use atomic_table::{Badge, Seat, Table};
use crossbeam_utils::Backoff;
use heap_model::{Call, Entry, Reply};
use std::alloc::{AllocError, Global};
use std::marker::Brand;
use std::mem;
use std::sync::Wait;

/// A lock for each region, numbered from 1, and the value that it keeps, in a box of its own. Contracts see which locks
/// they are, how many regions, passes and calls of a pass there are, and the plain data of each region.
#[derive(Drop)]
pub struct Locks<V: Kept> {
    pub(crate) table: Table<Option<Box<V>>, View, About<V>, Order<V>, Global>,
    pub(crate) alloc: Global,
    ghost sized: { (table.shared.table_id.words ≡ suc table.shared.table_id.slots) × (table.shared.table_id.slots ≤ 27)
        × (table.shared.key.budget ≤ 2 ^ 32) × (table.shared.key.passes ≤ 16)
        × (vec_len table.shared.key.values.value ≡ table.shared.table_id.slots) },
}

impl<V: Kept> Locks<V> {
    ghost use Rattle.std.specs.Prelude.{◌+◌, ◌<◌, ◌-◌, [], ◌∷◌, ◌++◌, None, true, length, IfOk, OnErr};
    ghost use mathlib.Core.Option.{some};
    ghost use lib.ListN.{get_elem?};
    ghost use Rattle.heap_model.specs.declared.calls.Entry.{Entry};
    ghost use Rattle.heap_model.specs.Forms.{suits_call};
    ghost use Rattle.region_lock.specs.Entries.{last_stamp};
    ghost use Rattle.region_lock.specs.Passes.{pass_view, list_in, IsResting, IsHolding, IsNext};
    ghost use Rattle.region_lock.specs.Plays.{most, noting};
    ghost use Rattle.region_lock.specs.Known.{Makes};
    ghost use Rattle.region_lock.specs.Rule.{IsValueAt};
    ghost use Rattle.region_lock.specs.Shown.{identity_of, regions_of, budget_of, plain_data_of, IsAllowedAt};

    // Waits until the region is home, and takes its value out.
    fn take<F: Told<V>, R: Wait>(
        &self,
        rt: &R,
        seat: &mut Seat<Option<Box<V>>, View>,
        worker: u32,
        slot: usize,
    ) -> Box<V>
        requires seat { (seat.old.table_id ≡ identity_of self.now) × (slot < regions_of self.now) }
        requires rests { IsResting worker seat.old.me }
        requires told { (y : V) → V.region y ≡ suc slot
            → get_elem? (plain_data_of V.plain self.now) slot ≡ some (V.plain y) → F.fact y }
        ensures seat { seat.new.table_id ≡ seat.old.table_id }
        ensures holds { seat.new.me ≡ (noting seat.old.me.0 (suc slot) (V.list result.value), (slot, None) ∷ []) }
        ensures fact { F.fact result.value × (V.region result.value ≡ suc slot) }
        ensures stamps { (last_stamp (V.list result.value) ≤ most) × (seat.old.me.0.last ≤ most) }
    {
        let backoff = Backoff::new();
        for _ in rt.forever() {
            let shared = &self.table.shared;
            let found = shared.compare_exchange::<Take<V, F>>(
                seat,
                slot + 1,
                0,
                u64::from(worker) + 1,
            );
            if found == 0 {
                return shared.exchange(seat, slot, None).unwrap();
            }
            backoff.snooze();
        }
        unreachable!()
    }

    // The region goes home with its list as it was.
    fn give(&self, seat: &mut Seat<Option<Box<V>>, View>, worker: u32, slot: usize, held: Box<V>)
        requires seat { (seat.old.table_id ≡ identity_of self.now) × (slot < regions_of self.now) }
        requires holds { IsHolding worker slot seat.old.me }
        requires value { IsValueAt V.region V.list V.plain (plain_data_of V.plain self.now) slot
            seat.old.me.0.noted held.value }
        ensures seat { seat.new.table_id ≡ seat.old.table_id }
        ensures rests { seat.new.me ≡ (pass_view worker (list_in seat.old.me.0) seat.old.me.0.last, []) }
    {
        let shared = &self.table.shared;
        drop(shared.exchange(seat, slot, Some(held)));
        shared.swap::<Give>(seat, slot + 1, 0);
    }

    // The region goes home with one entry more. This is the one event.
    fn add(
        &self,
        seat: &mut Seat<Option<Box<V>>, View>,
        worker: u32,
        slot: usize,
        held: Box<V>,
        entry: Entry,
    )
        requires seat { (seat.old.table_id ≡ identity_of self.now) × (slot < regions_of self.now) }
        requires holds { IsHolding worker slot seat.old.me }
        requires value { IsValueAt V.region V.list V.plain (plain_data_of V.plain self.now) slot
            (seat.old.me.0.noted ++ entry ∷ []) held.value }
        requires entry { IsNext worker slot seat.old.me.0 entry }
        requires budget { length (list_in seat.old.me.0) < budget_of self.now }
        ensures seat { seat.new.table_id ≡ seat.old.table_id }
        ensures rests { seat.new.me ≡ (pass_view worker (list_in seat.old.me.0 ++ entry ∷ []) entry.stamp, []) }
    {
        let shared = &self.table.shared;
        drop(shared.exchange(seat, slot, Some(held)));
        shared.swap::<Add<V>>(seat, slot + 1, 0);
    }

    // Holds the region for one step of its value.
    fn make<R: Wait, G: Gate>(
        &self,
        rt: &R,
        seat: &mut Seat<Option<Box<V>>, View>,
        worker: u32,
        made: u64,
        last: u64,
        gate: &G,
        slot: usize,
        call: &Call,
    ) -> Result<Entry, AllocError>
        requires seat { (seat.old.table_id ≡ identity_of self.now) × (slot < regions_of self.now) }
        requires rests { seat.old.me ≡ (pass_view worker (list_in seat.old.me.0) last, []) }
        requires made { (made ≡ length (list_in seat.old.me.0)) × (made < budget_of self.now) }
        requires call { IsAllowedAt V.plain V.allows self.now slot call.now }
        ensures seat { seat.new.table_id ≡ seat.old.table_id }
        ensures ok { IfOk result (λ e.
            (seat.new.me ≡ (pass_view worker (list_in seat.old.me.0 ++ e ∷ []) e.stamp, []))
            × (e.worker ≡ worker) × (e.number ≡ made) × (e.region ≡ suc slot) × (e.call ≡ call.now)
            × (last < e.stamp)) }
        ensures suits { IfOk result (λ e. suits_call call.now e.reply ≡ true) }
        ensures err { OnErr result (seat.new.me ≡ seat.old.me) }
    {
        let mut held = self.take::<Brand, R>(rt, seat, worker, slot);
        gate.inside(worker, slot as u32 + 1);
        match held.step(worker, made, last, call) {
            Ok(entry) => {
                self.add(seat, worker, slot, held, entry);
                Ok(entry)
            }
            Err(refused) => {
                self.give(seat, worker, slot, held);
                Err(refused)
            }
        }
    }

    /// Waits until the region is home, holds it, calls the gate once, makes one step of the region's value, and gives
    /// the region home. The reply is that of the entry that the step added. Where memory is short, no entry is added.
    pub fn with<R: Wait, G: Gate>(
        &self,
        rt: &R,
        pass: &mut Pass,
        gate: &G,
        region: u32,
        call: &Call,
    ) -> Result<Reply, AllocError>
        requires own { pass.old.locks ≡ identity_of self.now }
        requires region { (0 < region) × (region ≤ regions_of self.now) }
        requires call { IsAllowedAt V.plain V.allows self.now (region - 1) call.now }
        requires budget { length pass.old.list < budget_of self.now }
        ensures same { (pass.new.locks ≡ pass.old.locks) × (pass.new.worker ≡ pass.old.worker) }
        ensures ok { IfOk result (λ r. (e : Entry) × Makes pass.old e pass.new
            × (e.region ≡ region) × (e.call ≡ call.now) × (e.reply ≡ r)) }
        ensures suits { IfOk result (λ r. suits_call call.now r ≡ true) }
        ensures err { OnErr result (pass.new ≡ pass.old) }
    {
        let mut seat: Seat<Option<Box<V>>, View> = mem::replace(
            &mut pass.badge,
            Badge::blank(),
        ).into_seat();
        let made = self.make(
            rt,
            &mut seat,
            pass.worker,
            pass.made,
            pass.last,
            gate,
            region as usize - 1,
            call,
        );
        pass.badge = seat.into_badge();
        let entry = made?;
        pass.made += 1;
        pass.last = entry.stamp;
        Ok(entry.reply)
    }
}

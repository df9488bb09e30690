//! The locks as a whole: made, closed, and two passes that meet.

ghost use Rattle.std.specs.Prelude.{◌≡◌, ◌<◌, ◌≤◌, ◌^◌, ℕ, suc, [], map, max, vec_len, vec_capacity, IfOk};
ghost use Rattle.std.specs.List.{All};
ghost use mathlib.Core.Option.{some};
ghost use lib.ListN.{get_elem?};
ghost use Rattle.region_lock.specs.Closing.{Closes};
ghost use Rattle.region_lock.specs.Known.{newcomers};
ghost use Rattle.region_lock.specs.Rule.{counter};
ghost use Rattle.region_lock.specs.Shown.{identity_of, regions_of, passes_of, budget_of, plain_data_of};

use crate::about::About;
use crate::ends::{in_boxes, in_slots, out_of_boxes, out_of_slots};
use crate::kept::Kept;
use crate::locks::Locks;
use crate::pass::{Pass, seat_of, seated};
use crate::plays::{Both, Number, Order, Sit, Stamp};
use crate::view::View;
use atomic_table::{Badge, Refused, Seat, Table};
use std::alloc::{AllocError, Global};
use std::mem;
use std::snapshot::Snapshot;

type Board<V> = Table<Option<Box<V>>, View, About<V>, Order<V>, Global>;

// A pass for each number below `passes`.
fn deal<V: Kept>(
    table: &Board<V>,
    mut seat: Seat<Option<Box<V>>, View>,
    mut out: Vec<Pass>,
    passes: u32,
) -> Vec<Pass>
    requires seat { (seat.table_id ≡ table.now.shared.table_id) × (seat.me ≡ (counter 0, [])) }
    requires words { 0 < table.now.shared.table_id.words }
    requires passes { passes ≤ table.now.shared.key.passes }
    requires room { (out.items ≡ []) × (passes ≤ vec_capacity out) }
    ensures { result.items ≡ newcomers table.now.shared.table_id passes }
{
    for i in 0..passes {
        out.push_reserved(seated(table.shared.split_seat::<Number>(&mut seat), i));
    }
    out
}

// One seat that knows what all passes made.
fn gather<V: Kept>(table: &Board<V>, passes: Vec<Pass>) -> Seat<Option<Box<V>>, View>
    requires passes { All (λ p. p.locks ≡ table.now.shared.table_id) passes.items }
    requires words { 0 < table.now.shared.table_id.words }
    ensures seat { result.table_id ≡ table.now.shared.table_id }
    ensures view { (result.me.0.owns ≡ map (λ p. (p.worker, p.list)) passes.items) × (result.me.0.region ≡ 0) }
{
    let (_, mut seat) = table.shared.load_new_seat::<Sit>(0);
    for pass in passes {
        table.shared.join_seat::<Both>(&mut seat, seat_of(pass));
    }
    seat
}

impl<V: Kept> Locks<V> {
    /// Locks of these values, the first of which is of region 1, and passes numbered from 0. Each pass may make as many
    /// calls as the budget says.
    pub fn new(
        alloc: Global,
        values: Vec<V>,
        passes: u32,
        budget: u64,
    ) -> Result<(Locks<V>, Vec<Pass>), AllocError>
        requires count { (0 < vec_len values) × (vec_len values ≤ 27) }
        requires fresh { (k : ℕ) (y : V) → get_elem? values.items k ≡ some y
            → (V.region y ≡ suc k) × (V.list y ≡ []) }
        requires passes { (0 < passes) × (passes ≤ 16) }
        requires budget { budget ≤ 2 ^ 32 }
        ensures plain { IfOk result (λ r. plain_data_of V.plain r.0 ≡ map V.plain values.items) }
        ensures counts { IfOk result (λ r.
            (regions_of r.0 ≡ vec_len values) × (passes_of r.0 ≡ passes) × (budget_of r.0 ≡ budget)) }
        ensures passes { IfOk result (λ r. r.1.items ≡ newcomers (identity_of r.0) passes) }
    {
        let count = values.len();
        let words = Vec::from_elem(alloc, 0u64, count + 1)?;
        let out = Vec::with_capacity(alloc, passes as usize)?;
        let about = About {
            values: Snapshot::of(&values),
            passes,
            budget,
        };
        let boxes = in_boxes(alloc, values)?;
        let slots = in_slots(alloc, boxes)?;
        match Table::new(alloc, words.as_slice(), slots, &about) {
            Ok((table, seat)) => {
                let out = deal(&table, seat, out, passes);
                Ok((Locks { table, alloc }, out))
            }
            Err(Refused { slots: _ }) => Err(AllocError),
        }
    }

    /// The values, in the order in which they were given to `new`, once all passes are back.
    pub fn close(self, passes: Vec<Pass>) -> Result<Vec<V>, AllocError>
        requires count { vec_len passes ≡ passes_of self }
        requires own { All (λ p. p.locks ≡ identity_of self) passes.items }
        ensures { IfOk result (λ v.
            Closes V.region V.list V.plain (plain_data_of V.plain self) passes.items v.items) }
    {
        let Locks { table, alloc } = self;
        let boxes = Vec::with_capacity(alloc, table.slot_count())?;
        let values = Vec::with_capacity(alloc, table.slot_count())?;
        let seat = gather(&table, passes);
        Ok(out_of_boxes(out_of_slots(table.close_with(seat), boxes), values))
    }

    /// Raises the last stamp of a pass to another's, where that is greater. It takes no memory and waits for nobody.
    pub fn meet(&self, pass: &mut Pass, other: &mut Pass)
        requires own { (pass.old.locks ≡ identity_of self.now) × (other.old.locks ≡ identity_of self.now) }
        ensures same { (pass.new.locks ≡ pass.old.locks) × (pass.new.worker ≡ pass.old.worker)
            × (pass.new.list ≡ pass.old.list) }
        ensures last { pass.new.last ≡ max pass.old.last other.old.last }
        ensures other { other.new ≡ other.old }
    {
        let mut seat: Seat<Option<Box<V>>, View> = mem::replace(
            &mut pass.badge,
            Badge::blank(),
        ).into_seat();
        let mut giver: Seat<Option<Box<V>>, View> = mem::replace(
            &mut other.badge,
            Badge::blank(),
        ).into_seat();
        let note = self.table.shared.split_seat::<Stamp>(&mut giver);
        self.table.shared.join_seat::<Both>(&mut seat, note);
        pass.badge = seat.into_badge();
        other.badge = giver.into_badge();
        pass.last = pass.last.max(other.last);
    }
}

//! The end of an object.

ghost use Rattle.std.specs.Prelude.{◌≡◌, ◌==◌, Bool, None, true, false};
ghost use Rattle.heap_model.specs.declared.calls.Call.TheVariants.{Free};
ghost use Rattle.heap_model.specs.Answers as answers;
ghost use Rattle.heap_model.specs.Answers.{answer_by, reply};
ghost use Rattle.heap_model.specs.Forms.{is_free_report};
ghost use Rattle.heap_model.specs.Heap.{free_outcome};
ghost use Rattle.heap_model.specs.Layouts.{Layouts};
ghost use Rattle.heap_model.specs.State.{live_by, dead_by};
ghost use Rattle.object_slots.specs.SlotStates.{state_at};
ghost use Rattle.region_calls.specs.Naming.{IsInSlot, NamesLive};
ghost use Rattle.region_calls.specs.Serving.{IsServed};
ghost use Rattle.slot_headers.specs.Words.{address_of, version_of};

use crate::naming::{NamedObject, object_named, offset_in_slot};
use heap_model::{Reply, ReportKind};
use object_slots::{Facts, Slots};
use slot_headers::PtrWord;

/// The report on a free of a word that names a dead object of a slot.
fn free_of_dead(slots: &Slots, slot: u32, p: u64) -> ReportKind
    requires { IsInSlot slots.now (address_of p) slot }
    ensures answer { (fixed : Bool) → Reply.Report result ≡ reply (free_outcome (answers.offset (address_of p) p) fixed None true) }
    ensures suits { is_free_report result ≡ true }
{
    if offset_in_slot(slots, slot, p) == 0 {
        ReportKind::DoubleFree
    } else {
        ReportKind::BadFree
    }
}

/// Ends the live object of a slot, which a word names, where the word is that of its first byte and it is fixed as told.
fn free_of_live(slots: &mut Slots, slot: u32, facts: Facts, p: u64, fixed: bool) -> Reply
    requires version { (version_of p == 0) ≡ false }
    requires named { NamesLive slots.old (address_of p) p slot facts }
    ensures answer { (dead : Bool) → result ≡ reply (free_outcome (answers.offset (address_of p) p) fixed (state_at slots.old.states slot).body dead) }
    ensures served { IsServed slots.old slots.new (Free p fixed) result }
{
    if offset_in_slot(slots, slot, p) != 0 {
        return Reply::Report(ReportKind::BadFree);
    }
    if facts.fixed != fixed {
        return Reply::Report(ReportKind::BadFree);
    }
    slots.release(slot);
    Reply::Done
}

/// Ends the object that a word names (C11 7.22.3.3). Nothing is done for null, the word 0.
pub fn free(slots: &mut Slots, p: u64, fixed: bool) -> Reply
    ensures answer { (layouts : Layouts) → result ≡ answer_by layouts (live_by slots.old) (dead_by slots.old) (Free p fixed) }
    ensures served { IsServed slots.old slots.new (Free p fixed) result }
{
    if p == 0 {
        return Reply::Done;
    }
    let (address, version) = PtrWord::parts(p);
    if version == 0 {
        return Reply::Report(ReportKind::BadFree);
    }
    match object_named(slots, address, p) {
        NamedObject::Nothing => Reply::Report(ReportKind::DoubleFree),
        NamedObject::Dead(slot) => Reply::Report(free_of_dead(slots, slot, p)),
        NamedObject::Live(slot, facts) => free_of_live(slots, slot, facts, p, fixed),
    }
}

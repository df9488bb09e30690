//! The bounds of a part of an object.

ghost use Rattle.std.specs.Prelude.{◌≡◌, ◌+◌, ◌<◌, ◌≤◌, length, true};
ghost use Rattle.c_types.specs.Table.{HasSize};
ghost use Rattle.heap_model.specs.declared.calls.Call.TheVariants.{Check};
ghost use Rattle.heap_model.specs.Answers.{answer_by, check_reply, found_reply};
ghost use Rattle.heap_model.specs.Forms.{suits_check};
ghost use Rattle.heap_model.specs.Layouts.{layouts_of};
ghost use Rattle.heap_model.specs.State.{live_by, dead_by};
ghost use Rattle.lowfat_regions.specs.Regions.{object_address};
ghost use Rattle.region_calls.specs.Naming.{nth_slot};
ghost use Rattle.region_calls.specs.Serving.{KnowsElements};
ghost use Rattle.slot_headers.specs.Words.{version_of};

use crate::naming::{NamedObject, first_byte_of, object_named, offset_in_slot};
use c_types::TypeNo;
use heap_model::{Reach, Reply, ReportKind};
use layout_table::Table;
use object_slots::{Facts, Slots, law_slots};
use slot_headers::PtrWord;
use type_layout::law_inside;

/// The bounds of the part at an offset of the live object of a slot, as addresses, where a type is wanted.
fn bounds_at(
    slots: &Slots,
    table: &Table,
    slot: u32,
    facts: Facts,
    offset: u64,
    want: TypeNo,
) -> Reply
    requires taken { slot < length slots.now.states }
    requires elem { HasSize table.now facts.elem }
    requires want { HasSize table.now want }
    requires size { facts.size ≤ 1048559 }
    ensures value { result ≡ found_reply (object_address (nth_slot slots.now slot)) ((layouts_of table.now).preferred facts.elem facts.size offset want) }
    ensures suits { suits_check result ≡ true }
{
    law_inside();
    match table.lookup(facts.elem, u64::from(facts.size), offset, want) {
        Some(bounds) => {
            let first = first_byte_of(slots, slot);
            Reply::Found(Reach {
                lo: first + bounds.lo,
                hi: first + bounds.hi,
            })
        }
        None => Reply::Report(ReportKind::WrongType),
    }
}

/// The bounds of the part of an object that a word means where a type is wanted (after EffectiveSan), as addresses. They are
/// looked up, which takes no memory.
pub fn check(slots: &Slots, table: &Table, p: u64, want: TypeNo) -> Reply
    requires want { (layouts_of table.now).has want ≡ true }
    requires elements { KnowsElements (layouts_of table.now) slots.now }
    ensures answer { result ≡ answer_by (layouts_of table.now) (live_by slots.now) (dead_by slots.now) (Check p want) }
    ensures suits { suits_check result ≡ true }
{
    let (address, version) = PtrWord::parts(p);
    if version == 0 {
        return Reply::Report(ReportKind::Null);
    }
    let NamedObject::Live(slot, facts) = object_named(slots, address, p) else {
        return Reply::Report(ReportKind::Free);
    };
    law_slots(slots);
    let offset = offset_in_slot(slots, slot, p);
    bounds_at(slots, table, slot, facts, offset, want)
}

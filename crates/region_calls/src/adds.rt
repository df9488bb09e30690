//! What an addition gives and leaves.

ghost use Rattle.std.specs.Prelude.{◌≡◌, true};
ghost use Rattle.heap_model.specs.declared.calls.Call.TheVariants.{Add};
ghost use Rattle.heap_model.specs.Answers.{access};
ghost use Rattle.heap_model.specs.Cells.{Adds};
ghost use Rattle.heap_model.specs.Forms.{is_number};
ghost use Rattle.heap_model.specs.State.{live_by};
ghost use Rattle.region_calls.specs.Serving.{HasPieces, IsServed};

use crate::places::locate;
use heap_model::{AccessKind, Reach, Reply, ReportKind, Value, sign_extension, width_of};
use object_slots::Slots;

/// Adds to a whole number in one step, modulo the kind's width, and gives the number that stood there (C11 7.17.7.5).
pub fn add(slots: &mut Slots, p: u64, reach: &Reach, kind: AccessKind, value: u64) -> Reply
    requires number { is_number kind ≡ true }
    requires pieces { HasPieces slots.old }
    ensures answer { result ≡ access (live_by slots.old) p reach.now kind (Adds value) }
    ensures served { IsServed slots.old slots.new (Add p reach.now kind value) result }
{
    match locate(slots, p, reach, kind) {
        Ok(at) => {
            let width = width_of(kind) as u32;
            match slots.load(at.slot, at.offset, width) {
                Some(number) => {
                    slots.store(at.slot, at.offset, width, number.wrapping_add(value));
                    Reply::Value(Value {
                        bits: sign_extension(kind, number),
                        pointer: false,
                    })
                }
                None => Reply::Report(ReportKind::PointerBytes),
            }
        }
        Err(report) => Reply::Report(report),
    }
}

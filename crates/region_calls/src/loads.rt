//! What a load gives.

ghost use Rattle.std.specs.Prelude.{◌≡◌, true};
ghost use Rattle.heap_model.specs.Answers.{access, reply};
ghost use Rattle.heap_model.specs.Cells.{Loads, outcome_inside, width};
ghost use Rattle.heap_model.specs.Forms.{is_number, suits_load};
ghost use Rattle.heap_model.specs.State.{live_by};
ghost use Rattle.object_slots.specs.SlotStates.{OfObject};
ghost use Rattle.region_calls.specs.Naming.{IsPlace};
ghost use Rattle.region_calls.specs.Serving.{HasPieces};
ghost use Rattle.slot_headers.specs.Cells.{cells_at};

use crate::places::{Location, locate};
use heap_model::{AccessKind, Reach, Reply, ReportKind, Value, sign_extension, width_of};
use object_slots::Slots;

/// A whole number that stands at a place.
fn number_at(slots: &Slots, at: Location, kind: AccessKind) -> Reply
    requires place { IsPlace slots.now at.slot at.offset kind }
    requires number { is_number kind ≡ true }
    ensures answer { OfObject slots.now at.slot (λ o. result ≡ reply (outcome_inside kind Loads (cells_at at.offset (width kind) o.cells))) }
    ensures suits { suits_load kind result ≡ true }
{
    match slots.load(at.slot, at.offset, width_of(kind) as u32) {
        Some(number) => Reply::Value(Value {
            bits: sign_extension(kind, number),
            pointer: false,
        }),
        None => Reply::Report(ReportKind::PointerBytes),
    }
}

/// Eight bytes with their mark, as a reply.
fn marked(word: slot_headers::Value) -> Reply
    ensures { result ≡ Reply.Value (record { bits = word.bits; pointer = word.pointer }) }
{
    Reply::Value(Value {
        bits: word.bits,
        pointer: word.pointer,
    })
}

/// The eight bytes at a place, with their mark.
fn word_at(slots: &Slots, at: Location) -> Reply
    requires { IsPlace slots.now at.slot at.offset AccessKind.Word }
    ensures answer { OfObject slots.now at.slot (λ o. result ≡ reply (outcome_inside AccessKind.Word Loads (cells_at at.offset 8 o.cells))) }
    ensures suits { HasPieces slots.now → suits_load AccessKind.Word result ≡ true }
{
    marked(slots.load_word(at.slot, at.offset))
}

/// The pointer that stands at a place, and null for eight zero bytes.
fn pointer_at(slots: &Slots, at: Location) -> Reply
    requires { IsPlace slots.now at.slot at.offset AccessKind.Ptr }
    ensures answer { OfObject slots.now at.slot (λ o. result ≡ reply (outcome_inside AccessKind.Ptr Loads (cells_at at.offset 8 o.cells))) }
    ensures suits { HasPieces slots.now → suits_load AccessKind.Ptr result ≡ true }
{
    let word = slots.load_word(at.slot, at.offset);
    if word.pointer || word.bits == 0 {
        marked(word)
    } else {
        Reply::Report(ReportKind::NotPointer)
    }
}

/// What stands at a place, as a load of this kind gives it.
fn load_at(slots: &Slots, at: Location, kind: AccessKind) -> Reply
    requires { IsPlace slots.now at.slot at.offset kind }
    ensures answer { OfObject slots.now at.slot (λ o. result ≡ reply (outcome_inside kind Loads (cells_at at.offset (width kind) o.cells))) }
    ensures suits { HasPieces slots.now → suits_load kind result ≡ true }
{
    match kind {
        AccessKind::Ptr => pointer_at(slots, at),
        AccessKind::Word => word_at(slots, at),
        _ => number_at(slots, at, kind),
    }
}

/// Loads what stands at a word.
pub fn load(slots: &Slots, p: u64, reach: &Reach, kind: AccessKind) -> Reply
    ensures answer { result ≡ access (live_by slots.now) p reach.now kind Loads }
    ensures suits { HasPieces slots.now → suits_load kind result ≡ true }
{
    match locate(slots, p, reach, kind) {
        Ok(at) => load_at(slots, at, kind),
        Err(report) => Reply::Report(report),
    }
}

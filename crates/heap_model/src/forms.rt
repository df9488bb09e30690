//! Which calls may be made, in which region, and which replies may come.

ghost use Rattle.std.specs.Prelude.{◌≡◌};
ghost use Rattle.heap_model.specs.Forms as spec;
ghost use Rattle.heap_model.specs.Forms.{fits_call, suits_call};

use crate::access::{low_bytes, sign_extension};
use crate::calls::{AccessKind, Call, Reply, ReportKind, Value};
use lowfat_regions::{class_of, region_of};
use slot_headers::PtrWord;

/// The region of an address, and 1 where it is in none.
fn region_or_one(address: u64) -> Option<u32>
    ensures { result ≡ spec.region_or_one address }
{
    Some(region_of(address).unwrap_or(1))
}

/// The region that a call is made in, and none for an allocation that is too large for all of them.
#[tactic(auto, unfolding(crate::specs::Forms::region_for))]
pub fn region_for(call: &Call) -> Option<u32>
    ensures { result ≡ spec.region_for call.now }
{
    match *call {
        Call::Alloc { size, .. } => class_of(size),
        Call::Free { p, .. } | Call::Check { p, .. } => region_or_one(PtrWord::parts(p).0),
        Call::Load { reach, .. } | Call::Store { reach, .. } | Call::Add { reach, .. } => {
            region_or_one(reach.lo)
        }
    }
}

/// Whether a word is not null.
fn has_version(word: u64) -> bool
    ensures { result ≡ spec.has_version word }
{
    PtrWord::parts(word).1 > 0
}

fn is_number(kind: AccessKind) -> bool
    ensures { result ≡ spec.is_number kind }
{
    !matches!(kind, AccessKind::Ptr | AccessKind::Word)
}

/// Whether a store of this kind may have the value.
fn may_store(kind: AccessKind, value: Value) -> bool
    ensures { result ≡ spec.may_store kind value }
{
    match kind {
        AccessKind::Ptr => {
            if value.pointer {
                has_version(value.bits)
            } else {
                value.bits == 0
            }
        }
        AccessKind::Word => !value.pointer || has_version(value.bits),
        _ => !value.pointer,
    }
}

/// Whether the heap takes the call.
pub fn fits(call: &Call) -> bool
    ensures { result ≡ fits_call call.now }
{
    match *call {
        Call::Store { kind, value, .. } => may_store(kind, value),
        Call::Add { kind, .. } => is_number(kind),
        _ => true,
    }
}

/// Whether a load of this kind can give the number: null of a pointer, else what its low bytes give again.
fn can_give(kind: AccessKind, bits: u64) -> bool
    ensures { result ≡ spec.can_give kind bits }
{
    match kind {
        AccessKind::Ptr => bits == 0,
        _ => sign_extension(kind, low_bytes(kind, bits)) == bits,
    }
}

/// Whether a load of this kind can give the value.
fn gives_value(kind: AccessKind, value: Value) -> bool
    ensures { result ≡ spec.gives_value kind value }
{
    if value.pointer {
        !is_number(kind) && has_version(value.bits)
    } else {
        can_give(kind, value.bits)
    }
}

/// Whether a report comes before an access is made.
fn is_access_report(report: ReportKind) -> bool
    ensures { result ≡ spec.is_access_report report }
{
    matches!(
        report,
        ReportKind::Null | ReportKind::Free | ReportKind::Bounds | ReportKind::Align
    )
}

fn is_load_report(kind: AccessKind, report: ReportKind) -> bool
    ensures { result ≡ spec.is_load_report kind report }
{
    match report {
        ReportKind::PointerBytes => is_number(kind),
        ReportKind::NotPointer => matches!(kind, AccessKind::Ptr),
        _ => is_access_report(report),
    }
}

fn suits_alloc(reply: &Reply) -> bool
    ensures { result ≡ spec.suits_alloc reply.now }
{
    match *reply {
        Reply::Placed(word) => has_version(word),
        Reply::NoSlot => true,
        _ => false,
    }
}

fn suits_free(reply: &Reply) -> bool
    ensures { result ≡ spec.suits_free reply.now }
{
    matches!(
        *reply,
        Reply::Done | Reply::Report(ReportKind::BadFree | ReportKind::DoubleFree)
    )
}

fn suits_check(reply: &Reply) -> bool
    ensures { result ≡ spec.suits_check reply.now }
{
    matches!(
        *reply,
        Reply::Found(_) | Reply::Report(ReportKind::Null | ReportKind::Free | ReportKind::WrongType)
    )
}

fn suits_load(kind: AccessKind, reply: &Reply) -> bool
    ensures { result ≡ spec.suits_load kind reply.now }
{
    match *reply {
        Reply::Value(value) => gives_value(kind, value),
        Reply::Report(report) => is_load_report(kind, report),
        _ => false,
    }
}

fn suits_store(reply: &Reply) -> bool
    ensures { result ≡ spec.suits_store reply.now }
{
    match *reply {
        Reply::Done => true,
        Reply::Report(report) => is_access_report(report),
        _ => false,
    }
}

fn suits_add(kind: AccessKind, reply: &Reply) -> bool
    ensures { result ≡ spec.suits_add kind reply.now }
{
    match *reply {
        Reply::Value(value) => gives_value(kind, value),
        Reply::Report(report) => {
            is_access_report(report) || matches!(report, ReportKind::PointerBytes)
        }
        _ => false,
    }
}

/// Whether a reply is of a form that the heap gives to the call.
pub fn suits(call: &Call, reply: &Reply) -> bool
    ensures { result ≡ suits_call call.now reply.now }
{
    match *call {
        Call::Alloc { .. } => suits_alloc(reply),
        Call::Free { .. } => suits_free(reply),
        Call::Check { .. } => suits_check(reply),
        Call::Load { kind, .. } => suits_load(kind, reply),
        Call::Store { .. } => suits_store(reply),
        Call::Add { kind, .. } => suits_add(kind, reply),
    }
}

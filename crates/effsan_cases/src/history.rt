//! A record as lines: an entry each as `WORKER.NUMBER rREGION CALL -> REPLY`, where a pointer is written by the object that it
//! names and not by its address; then the endings, and what was printed.

use case_list::append_lines;
use effsan_top::Record;
use heap_model::{AccessKind, Call, Entry, History, Reach, Reply, Value};
use lowfat_regions::{region_of, slot_number};
use slot_headers::PtrWord;
use std::alloc::{AllocError, Global};

/// The entry that placed the object which a pointer names by an address: the one of its version in the address's slot.
fn placing_entry(history: &History, anchor: u64, pointer: u64) -> Option<(Entry, u64)> {
    let (_, version) = PtrWord::parts(pointer);
    for at in 0..history.len() {
        let entry = history.get(at);
        if let Reply::Placed(word) = entry.reply {
            let (first, placed) = PtrWord::parts(word);
            if placed == version
                && region_of(first) == region_of(anchor)
                && slot_number(first) == slot_number(anchor)
            {
                return Some((entry, first));
            }
        }
    }
    None
}

/// A number with its sign, where the upper half of the range stands for those below zero.
fn signed_text(alloc: Global, bits: u64) -> Result<String, AllocError> {
    if bits >> 63 == 0 {
        bits.to_string(alloc)
    } else {
        format!(in alloc; "-{}", bits.wrapping_neg())
    }
}

/// The address of the first byte of the object that a pointer names, or 0.
fn first_byte(history: &History, anchor: u64, pointer: u64) -> u64 {
    match placing_entry(history, anchor, pointer) {
        Some((_, first)) => first,
        None => 0,
    }
}

/// A pointer: `null`, `none`, or the object that it names and how far it is behind its first byte.
fn pointer_name(
    alloc: Global,
    history: &History,
    anchor: u64,
    pointer: u64,
) -> Result<String, AllocError> {
    let (address, version) = PtrWord::parts(pointer);
    if version == 0 {
        return String::from_str(alloc, "null");
    }
    let Some((entry, first)) = placing_entry(history, anchor, pointer) else {
        return String::from_str(alloc, "none");
    };
    let offset = address.wrapping_sub(first);
    let sign = if offset >> 63 == 0 { "+" } else { "" };
    let offset = signed_text(alloc, offset)?;
    format!(in alloc; "{}#{}{sign}{offset}", entry.worker, entry.number)
}

fn type_name(number: u32) -> &'static str {
    match number {
        1 => "void",
        2 => "char",
        3 => "unsigned char",
        4 => "short",
        5 => "unsigned short",
        6 => "int",
        7 => "unsigned int",
        8 => "long",
        9 => "unsigned long",
        _ => "?",
    }
}

fn kind_name(kind: AccessKind) -> &'static str {
    match kind {
        AccessKind::I8 => "i8",
        AccessKind::U8 => "u8",
        AccessKind::I16 => "i16",
        AccessKind::U16 => "u16",
        AccessKind::I32 => "i32",
        AccessKind::U32 => "u32",
        AccessKind::I64 => "i64",
        AccessKind::U64 => "u64",
        AccessKind::Ptr => "ptr",
        AccessKind::Word => "word",
    }
}

fn is_signed(kind: AccessKind) -> bool {
    matches!(
        kind,
        AccessKind::I8 | AccessKind::I16 | AccessKind::I32 | AccessKind::I64
    )
}

/// A value of an access: a pointer, or a number with the sign of its kind.
fn value_name(
    alloc: Global,
    history: &History,
    kind: AccessKind,
    value: Value,
) -> Result<String, AllocError> {
    if value.pointer || kind == AccessKind::Ptr {
        let (anchor, _) = PtrWord::parts(value.bits);
        pointer_name(alloc, history, anchor, value.bits)
    } else if is_signed(kind) {
        signed_text(alloc, value.bits)
    } else {
        value.bits.to_string(alloc)
    }
}

fn plain_value(bits: u64) -> Value {
    Value {
        bits,
        pointer: false,
    }
}

/// The pointer of a call that has one, the address by which it names its object, and how the call accesses it.
fn operand(call: Call) -> (u64, u64, AccessKind) {
    match call {
        Call::Alloc { .. } => (0, 0, AccessKind::Word),
        Call::Free { p, .. } | Call::Check { p, .. } => {
            let (anchor, _) = PtrWord::parts(p);
            (p, anchor, AccessKind::Word)
        }
        Call::Load { p, reach, kind }
        | Call::Store { p, reach, kind, .. }
        | Call::Add { p, reach, kind, .. } => (p, reach.lo, kind),
    }
}

fn call_name(alloc: Global, history: &History, call: Call) -> Result<String, AllocError> {
    let (p, anchor, kind) = operand(call);
    let name = pointer_name(alloc, history, anchor, p)?;
    let access = kind_name(kind);
    match call {
        Call::Alloc { elem, size, .. } => { format!(in alloc; "alloc {} {size}", type_name(elem)) }
        Call::Free { .. } => format!(in alloc; "free {name}"),
        Call::Check { want, .. } => format!(in alloc; "check {name} {}", type_name(want)),
        Call::Load { .. } => format!(in alloc; "load {name} {access}"),
        Call::Store { value, .. } => {
            let value = value_name(alloc, history, kind, value)?;
            format!(in alloc; "store {name} {access} {value}")
        }
        Call::Add { value, .. } => {
            let value = value_name(alloc, history, kind, plain_value(value))?;
            format!(in alloc; "add {name} {access} {value}")
        }
    }
}

/// Bounds, counted from the first byte of an object.
fn bounds(alloc: Global, first: u64, reach: Reach) -> Result<String, AllocError> {
    let lo = signed_text(alloc, reach.lo.wrapping_sub(first))?;
    let hi = signed_text(alloc, reach.hi.wrapping_sub(first))?;
    format!(in alloc; "found {lo} {hi}")
}

fn reply_name(alloc: Global, history: &History, entry: &Entry) -> Result<String, AllocError> {
    let (p, anchor, kind) = operand(entry.call);
    match entry.reply {
        Reply::Placed(_) => format!(in alloc; "placed {}#{}", entry.worker, entry.number),
        Reply::NoSlot => String::from_str(alloc, "noslot"),
        Reply::Done => String::from_str(alloc, "done"),
        Reply::Found(reach) => bounds(alloc, first_byte(history, anchor, p), reach),
        Reply::Value(value) => {
            let value = value_name(alloc, history, kind, value)?;
            format!(in alloc; "value {value}")
        }
        Reply::Report(kind) => format!(in alloc; "report {kind:?}"),
    }
}

fn append_entry(
    alloc: Global,
    to: &mut String,
    history: &History,
    entry: &Entry,
) -> Result<(), AllocError> {
    let call = call_name(alloc, history, entry.call)?;
    let reply = reply_name(alloc, history, entry)?;
    let line = format!(in alloc;
        "entry: {}.{} stamp {} r{} {call} -> {reply}\n",
        entry.worker, entry.number, entry.stamp, entry.region
    )?;
    to.push_str(line.as_str())
}

/// Adds a line for each entry of the history and for each ending, and the lines of each text.
pub fn append_record(alloc: Global, to: &mut String, run: &Record) -> Result<(), AllocError> {
    for at in 0..run.history.len() {
        append_entry(alloc, to, &run.history, &run.history.get(at))?;
    }
    for ending in run.endings.as_slice() {
        to.push_str(format!(in alloc; "ending: {ending:?}\n")?.as_str())?;
    }
    for text in run.texts.as_slice() {
        to.push_str(format!(in alloc; "text of {} bytes\n", text.bytes().len())?.as_str())?;
        append_lines(alloc, to, "text", text.bytes())?;
    }
    Ok(())
}

//! How an entry is kept in 40 bytes, where its numbers allow it.

ghost use Rattle.std.specs.Prelude.{◌≡◌, ◌+◌, ◌<◌, ◌^◌, length, IfSome};
ghost use Rattle.heap_model.specs.Rows as spec;
ghost use Rattle.heap_model.specs.Rows.{HasParts, IsWithin, Keeps, made};

use crate::calls::{AccessKind, Call, Entry, Reach, Reply, Value};
use c_types::TypeNo;

/// A number of 64 bits by its halves.
#[derive(Clone, Copy, Debug)]
pub(crate) struct Halves {
    pub(crate) low: u32,
    pub(crate) high: u32,
}

/// The addresses of a reach: how many bytes it begins past its region's first address, and how many bytes it has.
#[derive(Clone, Copy, Debug)]
pub(crate) struct Span {
    pub(crate) from: u32,
    pub(crate) bytes: u32,
}

/// Who made a call, and in which region.
#[derive(Clone, Copy, Debug)]
pub(crate) struct Caller {
    pub(crate) worker: u8,
    pub(crate) region: u8,
}

/// Which of its caller's calls a call is, and when it was made.
#[derive(Clone, Copy, Debug)]
pub(crate) struct Moment {
    pub(crate) number: u32,
    pub(crate) stamp: u32,
}

/// A load or a store with the value that was moved.
#[derive(Clone, Copy, Debug)]
pub(crate) struct Access {
    pub(crate) kind: AccessKind,
    pub(crate) pointer: bool,
    pub(crate) caller: Caller,
    pub(crate) moment: Moment,
    pub(crate) word: Halves,
    pub(crate) span: Span,
    pub(crate) bits: Halves,
}

/// An entry in 40 bytes: an object that was placed, a free or a store that was done, bounds that were found, a load or an
/// add that gave a value. Its worker and its region are below 2^8, its number, its stamp and an object's size below 2^32.
/// A reach begins fewer than 2^32 bytes past its region's first address, and has fewer than 2^32 bytes. What an add finds
/// is a plain number below 2^32, and what it adds is one within 2^32 of 0, modulo 2^64. Each other entry stands whole in a
/// list beside the rows: a report, an allocation without a slot, greater numbers, a reach that lies elsewhere, and a reply
/// that is of no form for its call.
///
/// Fields are laid out as they are written, so they stand in an order that leaves no gap.
#[derive(Clone, Copy, Debug)]
pub(crate) enum Row {
    Placed {
        fixed: bool,
        caller: Caller,
        moment: Moment,
        word: Halves,
        elem: TypeNo,
        size: u32,
    },
    Freed {
        fixed: bool,
        caller: Caller,
        moment: Moment,
        word: Halves,
    },
    Found {
        caller: Caller,
        moment: Moment,
        word: Halves,
        want: TypeNo,
        span: Span,
    },
    Loaded(Access),
    Stored(Access),
    /// Where it is taken off, one more than the number is.
    Added {
        kind: AccessKind,
        taken_off: bool,
        caller: Caller,
        moment: Moment,
        word: Halves,
        span: Span,
        old: u32,
        number: u32,
    },
    /// The place of an entry that stands whole.
    Whole(u32),
}

impl Halves {
    fn of(number: u64) -> Halves
        ensures { spec.number_of result ≡ number }
    {
        Halves {
            low: (number % (1 << 32)) as u32,
            high: (number >> 32) as u32,
        }
    }

    fn number(self) -> u64
        ensures { result ≡ spec.number_of self }
    {
        (u64::from(self.high) << 32) + u64::from(self.low)
    }
}

impl Span {
    /// The bytes of a reach in a region, where it lies in it or close behind.
    fn of(region: u8, reach: Reach) -> Option<Span>
        ensures { IfSome result (λ span. spec.reach_in region span ≡ reach) }
    {
        let first = u64::from(region) << 32;
        if reach.lo < first || reach.hi < reach.lo {
            return None;
        }
        Some(Span {
            from: u32::try_from(reach.lo - first).ok()?,
            bytes: u32::try_from(reach.hi - reach.lo).ok()?,
        })
    }

    fn reach(self, region: u8) -> Reach
        ensures { result ≡ spec.reach_in region self }
    {
        let lo = (u64::from(region) << 32) + u64::from(self.from);
        Reach {
            lo,
            hi: lo + u64::from(self.bytes),
        }
    }
}

/// The parts that a row of the entry has besides call and reply.
fn parts_of(entry: &Entry) -> Option<(Caller, Moment)>
    ensures { IfSome result (λ parts. HasParts entry.now parts.0 parts.1) }
{
    let caller = Caller {
        worker: u8::try_from(entry.worker).ok()?,
        region: u8::try_from(entry.region).ok()?,
    };
    let moment = Moment {
        number: u32::try_from(entry.number).ok()?,
        stamp: u32::try_from(entry.stamp).ok()?,
    };
    Some((caller, moment))
}

fn placed_row(
    caller: Caller,
    moment: Moment,
    elem: TypeNo,
    size: u64,
    fixed: bool,
    reply: &Reply,
) -> Option<Row>
    ensures { IfSome result (Keeps (made caller moment (Call.Alloc elem size fixed) reply.now)) }
{
    match *reply {
        Reply::Placed(word) => Some(Row::Placed {
            fixed,
            caller,
            moment,
            word: Halves::of(word),
            elem,
            size: u32::try_from(size).ok()?,
        }),
        _ => None,
    }
}

fn freed_row(caller: Caller, moment: Moment, p: u64, fixed: bool, reply: &Reply) -> Option<Row>
    ensures { IfSome result (Keeps (made caller moment (Call.Free p fixed) reply.now)) }
{
    match *reply {
        Reply::Done => Some(Row::Freed {
            fixed,
            caller,
            moment,
            word: Halves::of(p),
        }),
        _ => None,
    }
}

fn found_row(caller: Caller, moment: Moment, p: u64, want: TypeNo, reply: &Reply) -> Option<Row>
    ensures { IfSome result (Keeps (made caller moment (Call.Check p want) reply.now)) }
{
    match *reply {
        Reply::Found(reach) => Some(Row::Found {
            caller,
            moment,
            word: Halves::of(p),
            want,
            span: Span::of(caller.region, reach)?,
        }),
        _ => None,
    }
}

/// An access of these parts, if its numbers fit.
fn access_of(
    caller: Caller,
    moment: Moment,
    p: u64,
    reach: Reach,
    kind: AccessKind,
    value: Value,
) -> Option<Access>
    ensures loaded { IfSome result (λ a. spec.loaded a ≡ made caller moment (Call.Load p reach kind) (Reply.Value value)) }
    ensures stored { IfSome result (λ a. spec.stored a ≡ made caller moment (Call.Store p reach kind value) Reply.Done) }
{
    Some(Access {
        kind,
        pointer: value.pointer,
        caller,
        moment,
        word: Halves::of(p),
        span: Span::of(caller.region, reach)?,
        bits: Halves::of(value.bits),
    })
}

fn loaded_row(
    caller: Caller,
    moment: Moment,
    p: u64,
    reach: Reach,
    kind: AccessKind,
    reply: &Reply,
) -> Option<Row>
    ensures { IfSome result (Keeps (made caller moment (Call.Load p reach kind) reply.now)) }
{
    match *reply {
        Reply::Value(value) => Some(Row::Loaded(access_of(caller, moment, p, reach, kind, value)?)),
        _ => None,
    }
}

fn stored_row(
    caller: Caller,
    moment: Moment,
    p: u64,
    reach: Reach,
    kind: AccessKind,
    value: Value,
    reply: &Reply,
) -> Option<Row>
    ensures { IfSome result (Keeps (made caller moment (Call.Store p reach kind value) reply.now)) }
{
    match *reply {
        Reply::Done => Some(Row::Stored(access_of(caller, moment, p, reach, kind, value)?)),
        _ => None,
    }
}

/// A number that is less than 2^32, or one less than what is taken off to get there from 2^64.
fn taken_off(number: u64) -> Option<(bool, u32)>
    ensures { IfSome result (λ found. spec.added_number found.0 found.1 ≡ number) }
{
    match u32::try_from(number) {
        Ok(small) => Some((false, small)),
        Err(_) => Some((true, u32::try_from(u64::MAX - number).ok()?)),
    }
}

fn added_row(
    caller: Caller,
    moment: Moment,
    p: u64,
    reach: Reach,
    kind: AccessKind,
    number: u64,
    reply: &Reply,
) -> Option<Row>
    ensures { IfSome result (Keeps (made caller moment (Call.Add p reach kind number) reply.now)) }
{
    match *reply {
        Reply::Value(
            Value {
                bits,
                pointer: false,
            },
        ) => {
            let (taken_off, number) = taken_off(number)?;
            Some(Row::Added {
                kind,
                taken_off,
                caller,
                moment,
                word: Halves::of(p),
                span: Span::of(caller.region, reach)?,
                old: u32::try_from(bits).ok()?,
                number,
            })
        }
        _ => None,
    }
}

/// The row of an entry, and none for one that has to stand whole.
pub(crate) fn row_of(entry: &Entry) -> Option<Row>
    ensures { IfSome result (Keeps entry.now) }
{
    let (caller, moment) = parts_of(entry)?;
    let reply = &entry.reply;
    match entry.call {
        Call::Alloc { elem, size, fixed } => placed_row(caller, moment, elem, size, fixed, reply),
        Call::Free { p, fixed } => freed_row(caller, moment, p, fixed, reply),
        Call::Check { p, want } => found_row(caller, moment, p, want, reply),
        Call::Load { p, reach, kind } => loaded_row(caller, moment, p, reach, kind, reply),
        Call::Store {
            p,
            reach,
            kind,
            value,
        } => stored_row(caller, moment, p, reach, kind, value, reply),
        Call::Add {
            p,
            reach,
            kind,
            value,
        } => added_row(caller, moment, p, reach, kind, value, reply),
    }
}

fn entry_with(caller: Caller, moment: Moment, call: Call, reply: Reply) -> Entry
    ensures { result ≡ made caller moment call reply }
{
    Entry {
        worker: u32::from(caller.worker),
        number: u64::from(moment.number),
        stamp: u64::from(moment.stamp),
        region: u32::from(caller.region),
        call,
        reply,
    }
}

impl Access {
    fn loaded(&self) -> Entry
        ensures { result ≡ spec.loaded self.now }
    {
        let call = Call::Load {
            p: self.word.number(),
            reach: self.span.reach(self.caller.region),
            kind: self.kind,
        };
        entry_with(self.caller, self.moment, call, Reply::Value(self.value()))
    }

    fn stored(&self) -> Entry
        ensures { result ≡ spec.stored self.now }
    {
        let call = Call::Store {
            p: self.word.number(),
            reach: self.span.reach(self.caller.region),
            kind: self.kind,
            value: self.value(),
        };
        entry_with(self.caller, self.moment, call, Reply::Done)
    }

    fn value(&self) -> Value
        ensures { result ≡ spec.value_of self.now }
    {
        Value {
            bits: self.bits.number(),
            pointer: self.pointer,
        }
    }
}

/// What an add adds: a number, or what is one more than the number below 2^64.
fn added_number(taken_off: bool, number: u32) -> u64
    ensures { result ≡ spec.added_number taken_off number }
{
    if taken_off {
        u64::MAX - u64::from(number)
    } else {
        u64::from(number)
    }
}

/// The entry of a row, whose whole one is among those beside it.
pub(crate) fn entry_at(row: &Row, whole: &[Entry]) -> Entry
    requires { IsWithin (length whole.now) row.now }
    ensures { result ≡ spec.entry_at whole.now row.now }
{
    match *row {
        Row::Placed {
            fixed,
            caller,
            moment,
            word,
            elem,
            size,
        } => {
            let call = Call::Alloc {
                elem,
                size: u64::from(size),
                fixed,
            };
            entry_with(caller, moment, call, Reply::Placed(word.number()))
        }
        Row::Freed {
            fixed,
            caller,
            moment,
            word,
        } => {
            let p = word.number();
            entry_with(caller, moment, Call::Free { p, fixed }, Reply::Done)
        }
        Row::Found {
            caller,
            moment,
            word,
            want,
            span,
        } => {
            let p = word.number();
            let reply = Reply::Found(span.reach(caller.region));
            entry_with(caller, moment, Call::Check { p, want }, reply)
        }
        Row::Loaded(access) => access.loaded(),
        Row::Stored(access) => access.stored(),
        Row::Added {
            kind,
            taken_off,
            caller,
            moment,
            word,
            span,
            old,
            number,
        } => {
            let call = Call::Add {
                p: word.number(),
                reach: span.reach(caller.region),
                kind,
                value: added_number(taken_off, number),
            };
            let value = Value {
                bits: u64::from(old),
                pointer: false,
            };
            entry_with(caller, moment, call, Reply::Value(value))
        }
        Row::Whole(at) => whole[at as usize],
    }
}

//! The calls that are made on the heap, and what it replies.

use c_types::TypeNo;

/// The addresses that a pointer may be used at, from `lo` on and before `hi`.
#[derive(Clone, Copy, Debug, PartialEq, Eq)]
pub struct Reach {
    pub lo: u64,
    pub hi: u64,
}

/// How an access reads or writes its bytes: a whole number by its width in bits and its sign, a pointer, or eight aligned
/// bytes as they are, with their mark.
#[derive(Clone, Copy, Debug, PartialEq, Eq)]
pub enum AccessKind {
    I8,
    U8,
    I16,
    U16,
    I32,
    U32,
    I64,
    U64,
    Ptr,
    Word,
}

/// A plain number of up to eight bytes, or a pointer word.
#[derive(Clone, Copy, Debug, PartialEq, Eq)]
pub struct Value {
    pub bits: u64,
    pub pointer: bool,
}

/// A call on the heap. `p` is the word of the pointer that is used.
#[derive(Clone, Copy, Debug, PartialEq, Eq)]
pub enum Call {
    /// An object of `size` bytes, made of values of one type. One that is fixed belongs to a variable or a string literal.
    Alloc {
        elem: TypeNo,
        size: u64,
        fixed: bool,
    },
    /// The end of an object, of one that is fixed as told.
    Free {
        p: u64,
        fixed: bool,
    },
    /// The bounds of a part of the wanted type.
    Check {
        p: u64,
        want: TypeNo,
    },
    Load {
        p: u64,
        reach: Reach,
        kind: AccessKind,
    },
    Store {
        p: u64,
        reach: Reach,
        kind: AccessKind,
        value: Value,
    },
    /// A load and a store of the sum in one step.
    Add {
        p: u64,
        reach: Reach,
        kind: AccessKind,
        value: u64,
    },
}

/// What a report says. The heap gives all but the last two, which whoever runs the program gives.
#[derive(Clone, Copy, Debug, PartialEq, Eq)]
pub enum ReportKind {
    WrongType = 1,
    Bounds = 2,
    Free = 3,
    Null = 4,
    BadFree = 5,
    DoubleFree = 6,
    Align = 7,
    PointerBytes = 8,
    NotPointer = 9,
    Escape = 10,
    Compare = 11,
}

/// What the heap replies to a call.
#[derive(Clone, Copy, Debug, PartialEq, Eq)]
pub enum Reply {
    /// The word of a new object's first byte.
    Placed(u64),
    NoSlot,
    Done,
    /// The bounds that were asked for, as addresses.
    Found(Reach),
    Value(Value),
    Report(ReportKind),
}

/// One call with its reply: who made it, as which of its own calls (counted from 0), when, and in which region.
#[derive(Clone, Copy, Debug, PartialEq, Eq)]
pub struct Entry {
    pub worker: u32,
    pub number: u64,
    pub stamp: u64,
    pub region: u32,
    pub call: Call,
    pub reply: Reply,
}

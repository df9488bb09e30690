//! Pointers as words with reaches, and the types that they point to.

ghost use Rattle.std.specs.Prelude.{◌≡◌, ◌^◌, ◌<◌, ◌≤◌};
ghost use Rattle.heap_model.specs.Reaches as reaches;
ghost use Rattle.plain_meaning.specs.Points as points;
ghost use Rattle.plain_meaning.specs.Values as values;

use c_types::TypeNo;
use heap_model::{AccessKind, Reach};
use lowfat_regions::{region_of, size_of_region};
use plain_meaning::{CheckedPointer, Target};
use slot_headers::PtrWord;

/// No addresses.
pub(crate) const NOWHERE: Reach = Reach { lo: 0, hi: 0 };

/// The null pointer.
pub(crate) const NULL: CheckedPointer = CheckedPointer {
    word: 0,
    reach: NOWHERE,
};

/// How many addresses a word can have.
const ADDRESSES: u64 = 1 << 40;

pub(crate) fn is_null(pointer: &CheckedPointer) -> bool
    ensures { result ≡ points.is_null pointer.now }
{
    PtrWord::parts(pointer.word).1 == 0
}

/// Whether a word is within its reach or at its end.
#[tactic(auto, unfolding(heap_model::specs::Reaches::may_escape))]
pub(crate) fn may_escape(pointer: &CheckedPointer) -> bool
    ensures { result ≡ reaches.may_escape pointer.now.reach pointer.now.word }
{
    let (address, _) = PtrWord::parts(pointer.word);
    pointer.reach.lo <= address && address <= pointer.reach.hi
}

/// The pointer to a new object of this size.
#[tactic(auto, unfolding(slot_headers::specs::Words::address_of))]
pub(crate) fn new_pointer(word: u64, size: u32) -> CheckedPointer
    ensures { result ≡ points.new_pointer word size }
{
    let (lo, _) = PtrWord::parts(word);
    let hi = lo + u64::from(size);
    CheckedPointer {
        word,
        reach: Reach { lo, hi },
    }
}

/// The addresses that an object can have whose slot is that of a word.
#[tactic(auto, unfolding(slot_headers::specs::Words::address_of))]
pub(crate) fn slot_bounds(word: u64) -> Reach
    ensures { result ≡ reaches.slot_bounds word }
{
    let (address, _) = PtrWord::parts(word);
    match region_of(address) {
        Some(region) => {
            let size = size_of_region(region);
            let base = address - address % size;
            let lo = base + 16;
            let hi = base + size - 1;
            Reach { lo, hi }
        }
        None => NOWHERE,
    }
}

/// An address that is moved by so many values of a size, modulo 2^40 (C11 6.5.6p8).
fn shift_address(address: u64, count: i32, size: u32) -> u64
    requires address { address < 2 ^ 40 }
    requires size { size ≤ 8 }
    ensures value { result ≡ reaches.moved_address address count size }
    ensures bound { result < 2 ^ 40 }
{
    let distance = u64::from(count.unsigned_abs()) * u64::from(size);
    if count < 0 {
        return (address + (ADDRESSES - distance)) % ADDRESSES;
    }
    (address + distance) % ADDRESSES
}

/// A pointer that is moved so, its version and its reach kept.
#[tactic(auto, unfolding(slot_headers::specs::Words::address_of, slot_headers::specs::Words::version_of, heap_model::specs::Reaches::moved))]
pub(crate) fn shift(pointer: CheckedPointer, count: i32, size: u32) -> CheckedPointer
    requires { size ≤ 8 }
    ensures { result ≡ points.shift pointer count size }
{
    let (address, version) = PtrWord::parts(pointer.word);
    CheckedPointer {
        word: PtrWord::pack(shift_address(address, count, size), version),
        reach: pointer.reach,
    }
}

/// The number of the type that is pointed to.
pub(crate) fn type_of(target: Target) -> TypeNo
    ensures { result ≡ values.type_of target }
{
    match target {
        Target::Int => 6,
        Target::Char => 2,
    }
}

/// Its size in bytes.
pub(crate) fn size_of(target: Target) -> u32
    ensures value { result ≡ values.size_of target }
    ensures most { result ≤ 8 }
{
    match target {
        Target::Int => 4,
        Target::Char => 1,
    }
}

/// How it is read and written.
pub(crate) fn kind_of(target: Target) -> AccessKind
    ensures { result ≡ values.kind_of target }
{
    match target {
        Target::Int => AccessKind::I32,
        Target::Char => AccessKind::I8,
    }
}

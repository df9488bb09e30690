//! Scripts of calls on the slots of a region, with values worked out by hand.

ghost use Rattle.std.specs.Prelude.{◌≡◌, ◌+◌, ◌%◌, ◌<◌, ◌≤◌, true};
ghost use Rattle.lowfat_regions.specs.Regions.{IsRegion, size_of};
ghost use Rattle.slot_store.specs.Cells.{IsWidth};
ghost use Rattle.slot_store.specs.Slots.{made, slot_size};

use crate::Store;
use lowfat_regions::{size_of_region, slots_of};
use slot_headers::{Header, Value};
use std::alloc::{AllocError, Global};
use std::test::Fail;

/// A call on a slot, with what it answers.
#[derive(Clone, Copy)]
enum Call {
    /// A store of so many bytes of a number.
    Store(u32, u64),
    /// A load of so many bytes.
    Load(u32, Option<u64>),
    StorePtr(u64),
    LoadPtr(Option<u64>),
    StoreWord(Value),
    LoadWord(Value),
    PutHeader(Header),
    HasHeader(Header),
    Clear,
}

/// A step of a script: a slot, an offset in it, and a call there.
#[derive(Clone, Copy)]
struct Step(u32, u32, Call);

/// A pointer word: version 1, and the address of the first object of region 2.
const POINTER: u64 = 1_108_101_562_400;

/// Eight different bytes, 11 to 88 from the lowest on, and eight others, f1 to f8.
const BYTES: u64 = 0x8877_6655_4433_2211;

const OTHERS: u64 = 0xf8f7_f6f5_f4f3_f2f1;

macro_rules! plain {
    ($bits:expr) => {
        Value {
            bits: $bits,
            pointer: false,
        }
    };
}

macro_rules! pointer {
    ($bits:expr) => {
        Value {
            bits: $bits,
            pointer: true,
        }
    };
}

macro_rules! header {
    ($kind:expr, $version:expr, $fixed:expr, $size:expr) => {
        Header {
            kind: $kind,
            version: $version,
            fixed: $fixed,
            size: $size,
        }
    };
}

/// In the region of 48 bytes: what stands in a fresh slot, and what a whole number leaves of a pointer word.
static NUMBERS_OVER_POINTERS: [Step; 29] = [
    // A fresh slot is zero and unmarked.
    Step(0, 0, Call::LoadWord(plain!(0))),
    Step(0, 40, Call::LoadWord(plain!(0))),
    // A whole number stored into each byte of a marked word.
    Step(1, 16, Call::StorePtr(POINTER)),
    Step(1, 16, Call::Store(1, 0xab)),
    Step(1, 16, Call::LoadWord(plain!(0xab))),
    Step(1, 16, Call::StorePtr(POINTER)),
    Step(1, 17, Call::Store(1, 0xab)),
    Step(1, 16, Call::LoadWord(plain!(0xab00))),
    Step(1, 16, Call::StorePtr(POINTER)),
    Step(1, 18, Call::Store(1, 0xab)),
    Step(1, 16, Call::LoadWord(plain!(0xab0000))),
    Step(1, 16, Call::StorePtr(POINTER)),
    Step(1, 19, Call::Store(1, 0xab)),
    Step(1, 16, Call::LoadWord(plain!(0xab000000))),
    Step(1, 16, Call::StorePtr(POINTER)),
    Step(1, 20, Call::Store(1, 0xab)),
    Step(1, 16, Call::LoadWord(plain!(0xab00000000))),
    Step(1, 16, Call::StorePtr(POINTER)),
    Step(1, 21, Call::Store(1, 0xab)),
    Step(1, 16, Call::LoadWord(plain!(0xab0000000000))),
    Step(1, 16, Call::StorePtr(POINTER)),
    Step(1, 22, Call::Store(1, 0xab)),
    Step(1, 16, Call::LoadWord(plain!(0xab000000000000))),
    Step(1, 16, Call::StorePtr(POINTER)),
    Step(1, 23, Call::Store(1, 0xab)),
    Step(1, 16, Call::LoadWord(plain!(0xab00000000000000))),
    // A number of four bytes beside what was a pointer word.
    Step(1, 16, Call::StorePtr(POINTER)),
    Step(1, 20, Call::Store(4, OTHERS)),
    Step(1, 16, Call::LoadWord(plain!(0xf4f3_f2f1_0000_0000))),
];

/// In the region of 48 bytes: a load and a store of each width at each offset of a word, and the words beside it.
static WIDTHS: [Step; 62] = [
    Step(1, 24, Call::Store(8, BYTES)),
    Step(1, 24, Call::Load(1, Some(0x11))),
    Step(1, 24, Call::Store(1, OTHERS)),
    Step(1, 24, Call::LoadWord(plain!(0x88776655443322f1))),
    Step(1, 24, Call::Store(8, BYTES)),
    Step(1, 25, Call::Load(1, Some(0x22))),
    Step(1, 25, Call::Store(1, OTHERS)),
    Step(1, 24, Call::LoadWord(plain!(0x887766554433f111))),
    Step(1, 24, Call::Store(8, BYTES)),
    Step(1, 26, Call::Load(1, Some(0x33))),
    Step(1, 26, Call::Store(1, OTHERS)),
    Step(1, 24, Call::LoadWord(plain!(0x8877665544f12211))),
    Step(1, 24, Call::Store(8, BYTES)),
    Step(1, 27, Call::Load(1, Some(0x44))),
    Step(1, 27, Call::Store(1, OTHERS)),
    Step(1, 24, Call::LoadWord(plain!(0x88776655f1332211))),
    Step(1, 24, Call::Store(8, BYTES)),
    Step(1, 28, Call::Load(1, Some(0x55))),
    Step(1, 28, Call::Store(1, OTHERS)),
    Step(1, 24, Call::LoadWord(plain!(0x887766f144332211))),
    Step(1, 24, Call::Store(8, BYTES)),
    Step(1, 29, Call::Load(1, Some(0x66))),
    Step(1, 29, Call::Store(1, OTHERS)),
    Step(1, 24, Call::LoadWord(plain!(0x8877f15544332211))),
    Step(1, 24, Call::Store(8, BYTES)),
    Step(1, 30, Call::Load(1, Some(0x77))),
    Step(1, 30, Call::Store(1, OTHERS)),
    Step(1, 24, Call::LoadWord(plain!(0x88f1665544332211))),
    Step(1, 24, Call::Store(8, BYTES)),
    Step(1, 31, Call::Load(1, Some(0x88))),
    Step(1, 31, Call::Store(1, OTHERS)),
    Step(1, 24, Call::LoadWord(plain!(0xf177665544332211))),
    Step(1, 24, Call::Store(8, BYTES)),
    Step(1, 24, Call::Load(2, Some(0x2211))),
    Step(1, 24, Call::Store(2, OTHERS)),
    Step(1, 24, Call::LoadWord(plain!(0x887766554433f2f1))),
    Step(1, 24, Call::Store(8, BYTES)),
    Step(1, 26, Call::Load(2, Some(0x4433))),
    Step(1, 26, Call::Store(2, OTHERS)),
    Step(1, 24, Call::LoadWord(plain!(0x88776655f2f12211))),
    Step(1, 24, Call::Store(8, BYTES)),
    Step(1, 28, Call::Load(2, Some(0x6655))),
    Step(1, 28, Call::Store(2, OTHERS)),
    Step(1, 24, Call::LoadWord(plain!(0x8877f2f144332211))),
    Step(1, 24, Call::Store(8, BYTES)),
    Step(1, 30, Call::Load(2, Some(0x8877))),
    Step(1, 30, Call::Store(2, OTHERS)),
    Step(1, 24, Call::LoadWord(plain!(0xf2f1665544332211))),
    Step(1, 24, Call::Store(8, BYTES)),
    Step(1, 24, Call::Load(4, Some(0x44332211))),
    Step(1, 24, Call::Store(4, OTHERS)),
    Step(1, 24, Call::LoadWord(plain!(0x88776655f4f3f2f1))),
    Step(1, 24, Call::Store(8, BYTES)),
    Step(1, 28, Call::Load(4, Some(0x88776655))),
    Step(1, 28, Call::Store(4, OTHERS)),
    Step(1, 24, Call::LoadWord(plain!(0xf4f3f2f144332211))),
    Step(1, 24, Call::Store(8, BYTES)),
    Step(1, 24, Call::Load(8, Some(0x8877665544332211))),
    Step(1, 24, Call::Store(8, OTHERS)),
    Step(1, 24, Call::LoadWord(plain!(0xf8f7f6f5f4f3f2f1))),
    Step(1, 16, Call::LoadWord(plain!(0))),
    Step(1, 32, Call::LoadWord(plain!(0))),
];

/// In the region of 48 bytes: loads over a mark, pointers and null, and a slot cleared.
static MARKS: [Step; 31] = [
    // Loads over a mark, and of the bytes beside it.
    Step(1, 24, Call::Store(8, BYTES)),
    Step(1, 32, Call::StorePtr(POINTER)),
    Step(1, 32, Call::Load(1, None)),
    Step(1, 39, Call::Load(1, None)),
    Step(1, 34, Call::Load(2, None)),
    Step(1, 36, Call::Load(4, None)),
    Step(1, 32, Call::Load(8, None)),
    Step(1, 31, Call::Load(1, Some(0x88))),
    Step(1, 40, Call::Load(8, Some(0))),
    // Pointers, null, and bytes that are none.
    Step(1, 32, Call::LoadPtr(Some(POINTER))),
    Step(1, 32, Call::LoadWord(pointer!(POINTER))),
    Step(1, 24, Call::LoadPtr(None)),
    Step(1, 40, Call::LoadPtr(Some(0))),
    // 0 as a pointer is unmarked.
    Step(1, 32, Call::StorePtr(0)),
    Step(1, 32, Call::Load(8, Some(0))),
    Step(1, 32, Call::LoadWord(plain!(0))),
    // A word with its mark.
    Step(1, 32, Call::StoreWord(pointer!(0))),
    Step(1, 32, Call::Load(1, None)),
    Step(1, 32, Call::LoadPtr(Some(0))),
    Step(1, 32, Call::StoreWord(plain!(7))),
    Step(1, 32, Call::LoadPtr(None)),
    // A slot cleared, and the slots beside it.
    Step(0, 40, Call::Store(8, BYTES)),
    Step(2, 0, Call::StorePtr(POINTER)),
    Step(1, 0, Call::Store(8, OTHERS)),
    Step(1, 40, Call::StorePtr(POINTER)),
    Step(1, 0, Call::Clear),
    Step(1, 0, Call::LoadWord(plain!(0))),
    Step(1, 24, Call::LoadWord(plain!(0))),
    Step(1, 40, Call::LoadWord(plain!(0))),
    Step(0, 40, Call::LoadWord(plain!(BYTES))),
    Step(2, 0, Call::LoadWord(pointer!(POINTER))),
];

/// In the region of 48 bytes: headers.
static HEADERS: [Step; 15] = [
    // The low half of the word of a pointer is 32, its high half 0x102.
    Step(1, 0, Call::StorePtr(POINTER)),
    Step(1, 8, Call::Store(8, 5)),
    Step(1, 0, Call::HasHeader(header!(32, 0x102, false, 5))),
    // A header, and its bytes as numbers.
    Step(1, 8, Call::StorePtr(POINTER)),
    Step(1, 16, Call::Store(8, BYTES)),
    Step(1, 0, Call::PutHeader(header!(8, 1, true, 24))),
    Step(1, 0, Call::HasHeader(header!(8, 1, true, 24))),
    Step(1, 0, Call::Load(4, Some(8))),
    Step(1, 4, Call::Load(4, Some(0x8000_0001))),
    Step(1, 8, Call::Load(8, Some(24))),
    Step(1, 16, Call::Load(8, Some(BYTES))),
    Step(
        1,
        0,
        Call::PutHeader(header!(u32::MAX, 0x7fff_ffff, false, u64::MAX)),
    ),
    Step(1, 0, Call::Load(8, Some(0x7fff_ffff_ffff_ffff))),
    Step(1, 8, Call::Load(1, Some(255))),
    Step(
        1,
        0,
        Call::HasHeader(header!(u32::MAX, 0x7fff_ffff, false, u64::MAX)),
    ),
];

/// In the region of 1,536 bytes: slot 42 has the bytes from 64,512 on, of which 65,536 is its byte 1,024.
static ACROSS_PAGES: [Step; 18] = [
    Step(42, 1016, Call::Store(8, BYTES)),
    Step(42, 1024, Call::Store(8, OTHERS)),
    Step(42, 1032, Call::StorePtr(POINTER)),
    Step(42, 1016, Call::Load(8, Some(BYTES))),
    Step(42, 1023, Call::Load(1, Some(0x88))),
    Step(42, 1024, Call::Load(1, Some(0xf1))),
    Step(42, 1024, Call::LoadWord(plain!(OTHERS))),
    Step(42, 1032, Call::LoadPtr(Some(POINTER))),
    Step(41, 1528, Call::Store(8, 41)),
    Step(43, 0, Call::Store(8, 43)),
    Step(42, 0, Call::Clear),
    Step(42, 0, Call::LoadWord(plain!(0))),
    Step(42, 1016, Call::LoadWord(plain!(0))),
    Step(42, 1024, Call::LoadWord(plain!(0))),
    Step(42, 1032, Call::LoadWord(plain!(0))),
    Step(42, 1528, Call::LoadWord(plain!(0))),
    Step(41, 1528, Call::Load(8, Some(41))),
    Step(43, 0, Call::Load(8, Some(43))),
];

/// In the region of 1,048,576 bytes: the ends of slots.
static LARGE_SLOTS: [Step; 8] = [
    Step(1, 1048568, Call::StorePtr(POINTER)),
    Step(1, 524288, Call::Store(8, BYTES)),
    Step(0, 1048568, Call::Store(8, 1)),
    Step(1, 1048568, Call::LoadPtr(Some(POINTER))),
    Step(1, 524294, Call::Load(2, Some(0x8877))),
    Step(1, 1048568, Call::Load(1, None)),
    Step(1, 0, Call::LoadWord(plain!(0))),
    Step(0, 1048568, Call::Load(8, Some(1))),
];

/// Whether there are so many bytes at an offset of a slot of so many bytes, aligned.
fn is_piece(size: u64, at: u32, width: u32) -> bool
    ensures { result ≡ true → (IsWidth width) × (at % width ≡ 0) × (at + width ≤ size) }
{
    (width == 1 || width == 2 || width == 4 || width == 8)
        && at % width == 0
        && u64::from(at) + u64::from(width) <= size
}

/// Whether a load answers so.
fn is_answer(store: &Store, size: u64, step: Step) -> bool
    requires { size ≡ slot_size store.now }
{
    let Step(slot, at, call) = step;
    if slot >= store.made() {
        return false;
    }
    match call {
        Call::Load(width, wanted) if is_piece(size, at, width) => {
            store.load(slot, at, width) == wanted
        }
        Call::LoadPtr(wanted) if is_piece(size, at, 8) => store.load_ptr(slot, at) == wanted,
        Call::LoadWord(wanted) if is_piece(size, at, 8) => store.load_word(slot, at) == wanted,
        Call::HasHeader(wanted) => store.header(slot) == wanted,
        _ => false,
    }
}

/// Writes, and tells whether the call could be made.
fn is_written(store: &mut Store, size: u64, step: Step) -> bool
    requires { size ≡ slot_size store.old }
    ensures { size ≡ slot_size store.new }
{
    let Step(slot, at, call) = step;
    if slot >= store.made() {
        return false;
    }
    match call {
        Call::Store(width, bits) if is_piece(size, at, width) => {
            store.store(slot, at, width, bits);
        }
        Call::StorePtr(word) if is_piece(size, at, 8) => store.store_ptr(slot, at, word),
        Call::StoreWord(value) if is_piece(size, at, 8) => store.store_word(slot, at, value),
        Call::PutHeader(header) if header.version < 1 << 31 => store.put_header(slot, &header),
        Call::Clear => store.clear_slot(slot),
        _ => return false,
    }
    true
}

/// The number of the first step that is not as it says, over so many slots.
fn first_wrong(
    alloc: Global,
    region: u32,
    slots: u32,
    steps: &[Step],
) -> Result<Option<usize>, AllocError>
    requires { IsRegion region }
{
    let size = size_of_region(region);
    let mut store = Store::new(alloc, region);
    for slot in 0..slots {
        if store.made() >= slots_of(region) || store.open_slot()? != slot {
            return Ok(Some(usize::MAX));
        }
    }
    for (number, step) in steps.iter().enumerate() {
        if !is_written(&mut store, size, *step) && !is_answer(&store, size, *step) {
            return Ok(Some(number));
        }
    }
    Ok(None)
}

#[test]
fn slots_hold_what_was_written_last(rt: HostRuntime) -> Result<(), Fail> {
    let alloc = rt.alloc();
    assert_eq!(rt; first_wrong(alloc, 2, 2, &NUMBERS_OVER_POINTERS)?, None);
    assert_eq!(rt; first_wrong(alloc, 2, 2, &WIDTHS)?, None);
    assert_eq!(rt; first_wrong(alloc, 2, 3, &MARKS)?, None);
    assert_eq!(rt; first_wrong(alloc, 2, 2, &HEADERS)?, None);
    assert_eq!(rt; first_wrong(alloc, 19, 44, &ACROSS_PAGES)?, None);
    assert_eq!(rt; first_wrong(alloc, 27, 2, &LARGE_SLOTS)?, None);
    Ok(())
}

//! The bytes and marks of the slots of one region.

ghost use Rattle.std.specs.Prelude.{◌≡◌, ◌+◌, ◌*◌, ◌/◌, ◌%◌, ◌^◌, ◌<◌, ◌≤◌, [], ◌∷◌, ◌++◌, IfOk, OnErr, IfSome};
ghost use Rattle.lowfat_regions.specs.Regions.{IsRegion, slots, size_of};
ghost use Rattle.slot_headers.specs.Headers.{bytes_of, header_of, header_version_bound};
ghost use Rattle.slot_headers.specs.Cells.{bytes, parts, zeros, cells_at, number_in};
ghost use Rattle.slot_store.specs.Cells.{IsWidth, pointer_at, pointer_value};
ghost use Rattle.slot_headers.specs.Cells.{put};
ghost use Rattle.slot_store.specs.Cells.{value_cells, after_store, header_bytes, header_cells};
ghost use Rattle.slot_store.specs.Slots.{Contents, made, slot_size, cells_of, with_cells, with_cells_at, HasWholeSlots};

use crate::header_words::{bytes_of_words, words_of};
use crate::pages::Pages;
use lowfat_regions::size_of_region;
use slot_headers::{Header, Value};
use std::alloc::{AllocError, Global};
use std::marker::Model;

/// The bytes of a word.
const WORD_BYTES: usize = 8;

/// The slots of a region that were made so far. Contracts see each as a list of cells, one for each byte. A cell is a
/// byte, or one of the eight parts of a pointer word. `at` is the offset of a byte in a slot.
#[derive(Drop)]
pub struct Store {
    region: u32,
    slot_bytes: u32,
    made: u32,
    pages: Pages,
}

impl Model for Store {
    ghost use Rattle.std.specs.Prelude.{◌/◌};
    ghost use Rattle.slot_store.specs.Slots.{Contents};
    ghost use Rattle.slot_store.specs.Words.{slot_cells, IsWholeWords, AreSlots};

    ghost Value = { Contents };

    ghost view = { λ s. record { region = s.region; slots = slot_cells (s.slot_bytes / 8) s.made s.pages } };

    ghost invariant = { λ s. IsWholeWords s.slot_bytes × AreSlots s.region (s.slot_bytes / 8) s.made s.pages };
}

/// The number of a byte in its region.
#[inline]
fn byte_number(slot_bytes: u32, slot: u32, at: u32) -> u32
    requires { slot * slot_bytes + at < 2 ^ 32 }
    ensures { result ≡ slot * slot_bytes + at }
{
    slot * slot_bytes + at
}

/// Each slot that was made has the bytes of a slot of the region, and there are no more than the region has.
pub fn law_slots(store: &Store)
    ensures { HasWholeSlots store.now }
{
    let _slots = store.made;
}

impl Store {
    /// The store of a region, with no slot made.
    pub fn new(alloc: Global, region: u32) -> Store
        requires { IsRegion region }
        ensures { result ≡ record { region = region; slots = [] } }
    {
        Store {
            region,
            slot_bytes: size_of_region(region) as u32,
            made: 0,
            pages: Pages::new(alloc),
        }
    }

    /// How many slots were made.
    pub fn made(&self) -> u32
        ensures value { result ≡ made self.now }
        ensures limit { result ≤ slots self.now.region }
    {
        self.made
    }

    /// Makes the next slot, of zero bytes without a mark, and answers its number. Its memory is there before it is, and
    /// pages that were got before an error serve the next call.
    pub fn open_slot(&mut self) -> Result<u32, AllocError>
        requires { made self.old < slots self.old.region }
        ensures region { self.new.region ≡ self.old.region }
        ensures number { IfOk result (λ slot. slot ≡ made self.old) }
        ensures ok { IfOk result (λ _. self.new.slots ≡ self.old.slots ++ zeros (slot_size self.old) ∷ []) }
        ensures err { OnErr result (self.new ≡ self.old) }
    {
        let slot = self.made;
        let words = self.slot_bytes as usize / WORD_BYTES;
        self.pages.make_room((slot as usize + 1) * words)?;
        self.made = slot + 1;
        Ok(slot)
    }

    /// Makes a slot zero, without a mark.
    pub fn clear_slot(&mut self, slot: u32)
        requires { slot < made self.old }
        ensures { self.new ≡ with_cells self.old slot (zeros (slot_size self.old)) }
    {
        let words = self.slot_bytes as usize / WORD_BYTES;
        self.pages.clear(slot as usize * words, words);
    }

    /// The aligned piece of eight bytes round a byte, with its mark.
    #[inline]
    fn piece(&self, slot: u32, at: u32) -> Value
        requires made { slot < made self.now }
        requires inside { at < slot_size self.now }
        ensures { cells_at (8 * (at / 8)) 8 (cells_of self.now slot) ≡ value_cells result }
    {
        let byte = byte_number(self.slot_bytes, slot, at);
        self.pages.get(byte as usize / WORD_BYTES)
    }

    /// Writes the aligned piece of eight bytes round a byte, with its mark.
    #[inline]
    fn put_piece(&mut self, slot: u32, at: u32, value: Value)
        requires made { slot < made self.old }
        requires inside { at < slot_size self.old }
        ensures { self.new ≡ with_cells_at self.old slot (8 * (at / 8)) (value_cells value) }
    {
        let byte = byte_number(self.slot_bytes, slot, at);
        self.pages.set(byte as usize / WORD_BYTES, value);
    }

    /// The bytes at an offset as a little-endian number (C11 6.2.6.1), and none where one is a part of a pointer word.
    #[inline]
    pub fn load(&self, slot: u32, at: u32, width: u32) -> Option<u64>
        requires made { slot < made self.now }
        requires width { IsWidth width }
        requires aligned { at % width ≡ 0 }
        requires inside { at + width ≤ slot_size self.now }
        ensures value { result ≡ number_in (cells_at at width (cells_of self.now slot)) }
        ensures range { IfSome result (λ n. n < 2 ^ (8 * width)) }
    {
        let byte = byte_number(self.slot_bytes, slot, at);
        self.pages.load(byte, width)
    }

    /// Stores the low bytes of a whole number. A pointer word round them becomes zero first.
    #[inline]
    pub fn store(&mut self, slot: u32, at: u32, width: u32, bits: u64)
        requires made { slot < made self.old }
        requires width { IsWidth width }
        requires aligned { at % width ≡ 0 }
        requires inside { at + width ≤ slot_size self.old }
        ensures { self.new ≡ with_cells self.old slot (after_store at width bits (cells_of self.old slot)) }
    {
        let byte = byte_number(self.slot_bytes, slot, at);
        self.pages.store(byte, width, bits);
    }

    /// A pointer word, 0 for eight zero bytes, and none for other bytes.
    #[inline]
    pub fn load_ptr(&self, slot: u32, at: u32) -> Option<u64>
        requires made { slot < made self.now }
        requires aligned { at % 8 ≡ 0 }
        requires inside { at + 8 ≤ slot_size self.now }
        ensures { result ≡ pointer_at at (cells_of self.now slot) }
    {
        let piece = self.piece(slot, at);
        if piece.pointer || piece.bits == 0 {
            Some(piece.bits)
        } else {
            None
        }
    }

    /// Stores a pointer word, which is a pointer value unless it is 0.
    #[inline]
    pub fn store_ptr(&mut self, slot: u32, at: u32, word: u64)
        requires made { slot < made self.old }
        requires aligned { at % 8 ≡ 0 }
        requires inside { at + 8 ≤ slot_size self.old }
        ensures { self.new ≡ with_cells_at self.old slot at (value_cells (pointer_value word)) }
    {
        self.put_piece(
            slot,
            at,
            Value {
                bits: word,
                pointer: word != 0,
            },
        );
    }

    /// Eight bytes with their mark.
    #[inline]
    pub fn load_word(&self, slot: u32, at: u32) -> Value
        requires made { slot < made self.now }
        requires aligned { at % 8 ≡ 0 }
        requires inside { at + 8 ≤ slot_size self.now }
        ensures { cells_at at 8 (cells_of self.now slot) ≡ value_cells result }
    {
        self.piece(slot, at)
    }

    /// Writes eight bytes with their mark.
    #[inline]
    pub fn store_word(&mut self, slot: u32, at: u32, value: Value)
        requires made { slot < made self.old }
        requires aligned { at % 8 ≡ 0 }
        requires inside { at + 8 ≤ slot_size self.old }
        ensures { self.new ≡ with_cells_at self.old slot at (value_cells value) }
    {
        self.put_piece(slot, at, value);
    }

    /// The header in the first 16 bytes.
    pub fn header(&self, slot: u32) -> Header
        requires { slot < made self.now }
        ensures value { result ≡ header_of (header_bytes (cells_of self.now slot)) }
        ensures bytes { bytes_of result ≡ header_bytes (cells_of self.now slot) }
        ensures version { result.version < header_version_bound }
    {
        law_slots(self);
        let first = self.piece(slot, 0).bits;
        let second = self.piece(slot, 8).bits;
        Header::get(&bytes_of_words(first, second))
    }

    /// Writes a header into the first 16 bytes, none of which is then a part of a pointer word.
    pub fn put_header(&mut self, slot: u32, header: &Header)
        requires made { slot < made self.old }
        requires version { header.now.version < header_version_bound }
        ensures { self.new ≡ with_cells_at self.old slot 0 (header_cells header.now) }
    {
        law_slots(self);
        let (first, second) = words_of(header);
        self.put_piece(slot, 0, first);
        self.put_piece(slot, 8, second);
    }
}

//! A page of memory: bytes, with a mark for each word of eight that holds a pointer.

ghost use Rattle.std.specs.Prelude.{◌≡◌, ◌+◌, ◌/◌, ◌%◌, ◌<◌, ◌≤◌, false, true, slice_index_or, slice_set, IfOk};
ghost use Rattle.slot_store.specs.Cells.{IsWidth};
ghost use Rattle.slot_store.specs.Pages.{page_words, page_bytes};
ghost use Rattle.slot_store.specs.Words.{zero_word, zero_words, bits_at, with_bits};
ghost use Rattle.slot_store.specs.Words.{number_in_word, with_number};

use crate::numbers::{law_bytes, read_number, write_number};
use slot_headers::Value;
use std::alloc::{AllocError, Global};
use std::marker::Model;

/// The bytes of a page.
pub(crate) const PAGE_BYTES: usize = 65536;

/// The words of a page.
pub(crate) const PAGE_WORDS: usize = 8192;

/// The bytes of a page, and for each word whether it holds a pointer. They are one piece of memory, so that one look-up
/// finds both, and a load or a store looks it up once.
#[derive(Drop)]
struct Frame {
    bytes: [u8; PAGE_BYTES],
    marks: [bool; PAGE_WORDS],
}

impl Model for Frame {
    ghost use Rattle.std.specs.Prelude.{◌≡◌, List, length};
    ghost use Rattle.slot_headers.specs.declared.value.Value.{Value as Word};
    ghost use Rattle.slot_store.specs.Pages.{words_of, page_bytes, page_words};

    ghost Value = { List Word };

    ghost view = { λ f. words_of f.bytes f.marks };

    ghost invariant = { λ f. (length f.bytes ≡ page_bytes) × (length f.marks ≡ page_words) };
}

impl Frame {
    /// A word and its mark.
    #[inline]
    fn get(&self, word: usize) -> Value
        requires { word < page_words }
        ensures { result ≡ slice_index_or self.now word result }
    {
        Value {
            bits: read_number(&self.bytes, 8 * word, 8),
            pointer: self.marks[word],
        }
    }

    /// Writes a word and its mark.
    #[inline]
    fn set(&mut self, word: usize, value: Value)
        requires { word < page_words }
        ensures { self.new ≡ slice_set self.old word value }
    {
        self.marks[word] = value.pointer;
        write_number(&mut self.bytes, 8 * word, 8, value.bits);
    }

    /// Whether a word holds a pointer.
    #[inline]
    fn is_marked(&self, word: usize) -> bool
        requires { word < page_words }
        ensures { result ≡ (slice_index_or self.now word zero_word).pointer }
    {
        self.marks[word]
    }

    /// The number of so many bytes of a word, from one of its bytes on.
    #[inline]
    fn read(&self, at: usize, width: u32) -> u64
        requires place { at < page_bytes }
        requires width { IsWidth width }
        requires inside { at % 8 + width ≤ 8 }
        ensures { result ≡ bits_at (at % 8) width (slice_index_or self.now (at / 8) zero_word).bits }
    {
        law_bytes(&self.bytes);
        read_number(&self.bytes, at, width)
    }

    /// Writes so many bytes of a word that holds no pointer, from one of its bytes on.
    #[inline]
    fn write(&mut self, at: usize, width: u32, number: u64)
        requires place { at < page_bytes }
        requires width { IsWidth width }
        requires inside { at % 8 + width ≤ 8 }
        requires plain { (slice_index_or self.old (at / 8) zero_word).pointer ≡ false }
        ensures { let old = slice_index_or self.old (at / 8) zero_word in
            let new = with_bits (at % 8) width number old.bits in
            self.new ≡ slice_set self.old (at / 8) (record { bits = new; pointer = false }) }
    {
        law_bytes(&self.bytes);
        write_number(&mut self.bytes, at, width, number);
    }

    /// The number of so many bytes of a word, from one of its bytes on, and none where the word holds a pointer.
    #[inline]
    fn load(&self, at: usize, width: u32) -> Option<u64>
        requires place { at < page_bytes }
        requires width { IsWidth width }
        requires inside { at % 8 + width ≤ 8 }
        ensures { result ≡ number_in_word (at % 8) width (slice_index_or self.now (at / 8) zero_word) }
    {
        if self.is_marked(at / 8) {
            return None;
        }
        Some(self.read(at, width))
    }

    /// Writes so many bytes of a word that holds a pointer, and makes it zero first. This is rare, and the last thing that
    /// a store does, so that a store keeps nothing across a call.
    #[cold]
    #[inline(never)]
    fn store_over_pointer(&mut self, at: usize, width: u32, number: u64)
        requires place { at < page_bytes }
        requires width { IsWidth width }
        requires inside { at % 8 + width ≤ 8 }
        requires marked { (slice_index_or self.old (at / 8) zero_word).pointer ≡ true }
        ensures { let old = slice_index_or self.old (at / 8) zero_word in
            self.new ≡ slice_set self.old (at / 8) (with_number (at % 8) width number old) }
    {
        let _bytes = &self.bytes;
        let zero = Value {
            bits: 0,
            pointer: false,
        };
        self.set(at / 8, zero);
        self.write(at, width, number);
    }

    /// Writes so many bytes of a word, from one of its bytes on. Where the word holds a pointer it becomes zero first.
    #[inline]
    fn store(&mut self, at: usize, width: u32, number: u64)
        requires place { at < page_bytes }
        requires width { IsWidth width }
        requires inside { at % 8 + width ≤ 8 }
        ensures { let old = slice_index_or self.old (at / 8) zero_word in
            self.new ≡ slice_set self.old (at / 8) (with_number (at % 8) width number old) }
    {
        if self.is_marked(at / 8) {
            self.store_over_pointer(at, width, number);
        } else {
            self.write(at, width, number);
        }
    }
}

/// The words of a page with their marks.
#[derive(Drop)]
pub(crate) struct Page {
    frame: Box<Frame>,
}

impl Model for Page {
    ghost use Rattle.std.specs.Prelude.{List};
    ghost use Rattle.slot_headers.specs.declared.value.Value.{Value as Word};

    ghost Value = { List Word };

    ghost view = { λ p. p.frame.value };
}

impl Page {
    /// A page of zeros, none of them marked.
    #[cold]
    pub(crate) fn new(alloc: Global) -> Result<Page, AllocError>
        ensures { IfOk result (λ p. p ≡ zero_words page_words) }
    {
        let frame = Box::new(
            alloc,
            Frame {
                bytes: [0; PAGE_BYTES],
                marks: [false; PAGE_WORDS],
            },
        )?;
        Ok(Page { frame })
    }

    /// A word and its mark.
    #[inline]
    pub(crate) fn get(&self, word: usize) -> Value
        requires { word < page_words }
        ensures { result ≡ slice_index_or self.now word result }
    {
        self.frame.get(word)
    }

    /// Writes a word and its mark.
    #[inline]
    pub(crate) fn set(&mut self, word: usize, value: Value)
        requires { word < page_words }
        ensures { self.new ≡ slice_set self.old word value }
    {
        self.frame.set(word, value);
    }

    /// The number of so many bytes of a word, from one of its bytes on, and none where the word holds a pointer.
    #[inline]
    pub(crate) fn load(&self, at: usize, width: u32) -> Option<u64>
        requires place { at < page_bytes }
        requires width { IsWidth width }
        requires inside { at % 8 + width ≤ 8 }
        ensures { result ≡ number_in_word (at % 8) width (slice_index_or self.now (at / 8) zero_word) }
    {
        self.frame.load(at, width)
    }

    /// Writes so many bytes of a word, from one of its bytes on. Where the word holds a pointer it becomes zero first.
    #[inline]
    pub(crate) fn store(&mut self, at: usize, width: u32, number: u64)
        requires place { at < page_bytes }
        requires width { IsWidth width }
        requires inside { at % 8 + width ≤ 8 }
        ensures { let old = slice_index_or self.old (at / 8) zero_word in
            self.new ≡ slice_set self.old (at / 8) (with_number (at % 8) width number old) }
    {
        self.frame.store(at, width, number);
    }
}

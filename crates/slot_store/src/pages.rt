//! The words of a region, in pages.

ghost use Rattle.std.specs.Prelude.{◌≡◌, ◌+◌, ◌-◌, ◌/◌, ◌%◌, ◌^◌, ◌<◌, ◌≤◌, nat_le, OnOk};
ghost use Rattle.std.specs.Prelude.{[], ◌++◌, slice_index_or, slice_set, length, take, drop};
ghost use Rattle.slot_store.specs.Cells.{IsWidth};
ghost use Rattle.slot_store.specs.Words.{zero_word, zero_words, number_in_word, with_number};

use crate::page::{PAGE_BYTES, PAGE_WORDS, Page};
use slot_headers::Value;
use std::alloc::{AllocError, Global};
use std::marker::Model;

/// The words of pages, one page after another. Nothing is copied when a page is added.
#[derive(Drop)]
pub(crate) struct Pages {
    alloc: Global,
    pages: Vec<Page>,
}

impl Model for Pages {
    ghost use Rattle.std.specs.Prelude.{List};
    ghost use Rattle.slot_headers.specs.declared.value.Value.{Value as Word};
    ghost use Rattle.slot_store.specs.Pages.{joined, AreWhole};

    ghost Value = { List Word };

    ghost view = { λ p. joined p.pages.items };

    ghost invariant = { λ p. AreWhole p.pages.items };
}

impl Pages {
    /// No page, which takes no memory.
    pub(crate) fn new(alloc: Global) -> Pages
        ensures { result ≡ [] }
    {
        Pages {
            alloc,
            pages: Vec::new(alloc),
        }
    }

    /// Adds a page of zeros.
    fn add_page(&mut self) -> Result<(), AllocError>
        ensures grown { self.new ≡ self.old ++ zero_words (length self.new - length self.old) }
        ensures more { OnOk result (length self.new ≡ length self.old + 8192) }
    {
        let page = Page::new(self.alloc)?;
        self.pages.push(page)?;
        Ok(())
    }

    /// Whether there are so many words.
    fn has_room(&self, words: usize) -> bool
        ensures { result ≡ nat_le words (length self.now) }
    {
        words.div_ceil(PAGE_WORDS) <= self.pages.len()
    }

    /// Adds pages of zeros until there are so many words. On an error some of the pages may stand.
    pub(crate) fn make_room(&mut self, words: usize) -> Result<(), AllocError>
        ensures grown { self.new ≡ self.old ++ zero_words (length self.new - length self.old) }
        ensures room { OnOk result (words ≤ length self.new) }
    {
        while !self.has_room(words) {
            self.add_page()?;
        }
        Ok(())
    }

    /// A word and its mark, by its number in the region.
    #[inline]
    pub(crate) fn get(&self, at: usize) -> Value
        requires { at < length self.now }
        ensures { result ≡ slice_index_or self.now at result }
    {
        self.pages[at / PAGE_WORDS].get(at % PAGE_WORDS)
    }

    /// Writes a word and its mark.
    #[inline]
    pub(crate) fn set(&mut self, at: usize, value: Value)
        requires { at < length self.old }
        ensures { self.new ≡ slice_set self.old at value }
    {
        let page = &mut self.pages[at / PAGE_WORDS];
        page.set(at % PAGE_WORDS, value);
    }

    /// The number of so many bytes of a word, by the number of the first of them in the region, and none where the word
    /// holds a pointer.
    #[inline]
    pub(crate) fn load(&self, at: u32, width: u32) -> Option<u64>
        requires place { at / 8 < length self.now }
        requires width { IsWidth width }
        requires inside { at % 8 + width ≤ 8 }
        ensures { result ≡ number_in_word (at % 8) width (slice_index_or self.now (at / 8) zero_word) }
    {
        self.pages[at as usize / PAGE_BYTES].load(at as usize % PAGE_BYTES, width)
    }

    /// Writes so many bytes of a word, by the number of the first of them in the region. Where the word holds a pointer
    /// it becomes zero first.
    #[inline]
    pub(crate) fn store(&mut self, at: u32, width: u32, number: u64)
        requires place { at / 8 < length self.old }
        requires width { IsWidth width }
        requires inside { at % 8 + width ≤ 8 }
        ensures { let old = slice_index_or self.old (at / 8) zero_word in
            self.new ≡ slice_set self.old (at / 8) (with_number (at % 8) width number old) }
    {
        let page = &mut self.pages[at as usize / PAGE_BYTES];
        page.store(at as usize % PAGE_BYTES, width, number);
    }

    /// Makes so many words zero from one on, without a mark.
    pub(crate) fn clear(&mut self, first: usize, count: usize)
        requires inside { first + count ≤ length self.old }
        requires few { first + count < 2 ^ 32 }
        ensures { self.new ≡ take first self.old ++ (zero_words count ++ drop (first + count) self.old) }
    {
        let zero = Value {
            bits: 0,
            pointer: false,
        };
        for at in first..first + count {
            self.set(at, zero);
        }
    }
}

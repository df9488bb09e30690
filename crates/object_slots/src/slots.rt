//! The slots of a region: which objects were made in them, where these stand, and which slots are free.

ghost use Rattle.std.specs.Prelude.{◌≡◌, ◌≢◌, ◌+◌, ◌*◌, ◌%◌, ◌^◌, ◌≤◌, ◌<◌, [], ◌∷◌, ◌++◌, None, Contains, length, IfOk, IfSome, OnErr, set};
ghost use Rattle.std.specs.Option.{option_map};
ghost use Rattle.free_slots.specs.Slots.{last_resting};
ghost use Rattle.lowfat_regions.specs.Regions as regions;
ghost use Rattle.slot_headers.specs.Cells.{number_in, cells_at, put, zeros};
ghost use Rattle.slot_headers.specs.Words.{version_bound};
ghost use Rattle.slot_store.specs.Cells.{IsWidth, after_store, pointer_at, pointer_value, value_cells};
ghost use Rattle.slot_store.specs.Slots.{Contents};
ghost use Rattle.heap_model.specs.Objects.{max_objects};
ghost use Rattle.object_slots.specs.SlotStates.{state_at, IsLive, OfObject, count_live, count_made, with_object, without_object, with_cells_in};
ghost use Rattle.object_slots.specs.Objects.{facts_of, FitsIn, AreOfRegion, AreStored};

use crate::facts::Facts;
use crate::placing::{open_spare, place};
use c_types::TypeNo;
use free_slots::FreeSlots;
use lowfat_regions::slots_of;
use slot_headers::{Header, Value, law_read};
use slot_store::Store;
use std::alloc::{AllocError, Global};
use std::marker::Model;

/// The bytes of a header, behind which an object begins.
const HEADER: u32 = Header::BYTES as u32;

/// The slots of a region, which contracts see as the states of those that were taken at least once, by their numbers, and
/// those at rest. An object stands in the cells of its slot, behind its header. `offset` is that of a byte in an object.
#[derive(Drop)]
pub struct Slots {
    region: u32,
    store: Store,
    /// Which slots have no live object, and which of them may be taken.
    free: FreeSlots,
    made: u32,
}

impl Model for Slots {
    ghost use Rattle.heap_model.specs.State.{State};

    ghost Value = { State };

    ghost use Rattle.object_slots.specs.View.{state_of, AreKept};

    ghost view = { λ s. state_of s.region s.store s.free };

    ghost invariant = { λ s. AreKept s.region s.store s.free s.made };
}

/// The states are those of slots of the region, with objects that fit.
pub fn law_slots(slots: &Slots)
    ensures { AreOfRegion slots.now }
{
    let _made = slots.made;
}

/// There are cells in which each object stands behind the 16 bytes of its header: those that `Slots::cells` answers.
pub fn law_headers(slots: &Slots)
    ensures { (cells : Contents) × AreStored cells slots.now }
{
    let _cells = slots.cells();
}

impl Slots {
    /// The slots of a region, of which none was taken. This takes no memory.
    pub fn new(alloc: Global, region: u32) -> Slots
        requires { regions.IsRegion region }
        ensures { result ≡ record { region = region; states = []; resting = [] } }
    {
        Slots {
            region,
            store: Store::new(alloc, region),
            free: FreeSlots::new(alloc, slots_of(region)),
            made: 0,
        }
    }

    /// The region's number.
    pub fn region(&self) -> u32
        ensures { result ≡ self.now.region }
    {
        self.region
    }

    /// How many slots were taken.
    pub fn slot_count(&self) -> u32
        ensures { result ≡ length self.now.states }
    {
        self.free.made()
    }

    /// How many objects live.
    pub fn live(&self) -> u32
        ensures { result ≡ count_live self.now.states }
    {
        self.free.live()
    }

    /// How many slots are at rest.
    pub fn resting(&self) -> u32
        ensures { result ≡ length self.now.resting }
    {
        self.free.resting()
    }

    /// How many objects were made.
    pub fn made(&self) -> u32
        ensures { result ≡ count_made self.now.states }
    {
        self.made
    }

    /// The cells of all slots. The first 16 of a live object's slot are the bytes of its header.
    pub fn cells(&self) -> &Store
        ensures { AreStored result.now self.now }
    {
        slot_store::law_slots(&self.store);
        &self.store
    }

    /// The version of the last object of a slot.
    pub fn version(&self, slot: u32) -> u32
        requires { slot < length self.now.states }
        ensures value { result ≡ (state_at self.now.states slot).versions }
        ensures bound { result < version_bound }
    {
        self.store.header(slot).version
    }

    /// What is known of the live object of a slot, and none where there is no live one.
    pub fn object(&self, slot: u32) -> Option<Facts>
        ensures { result ≡ option_map facts_of (state_at self.now.states slot).body }
    {
        if !self.free.is_taken(slot) {
            return None;
        }
        slot_store::law_slots(&self.store);
        let header = self.store.header(slot);
        Some(Facts {
            elem: header.kind,
            size: header.size as u32,
            fixed: header.fixed,
        })
    }

    /// Places an object of zero bytes in the slot that comes next, and answers the slot's number. There has to be a slot that
    /// has no live object and does not rest.
    pub fn take(&mut self, elem: TypeNo, size: u32, fixed: bool) -> Result<u32, AllocError>
        requires left { count_live self.old.states + length self.old.resting ≢ regions.slots self.old.region }
        requires made { count_made self.old.states < max_objects }
        requires fits { FitsIn self.old.region size }
        ensures free { IfOk result (λ slot. (state_at self.old.states slot).body ≡ None) }
        ensures next { IfOk result (λ slot. slot ≤ length self.old.states) }
        ensures within { IfOk result (λ slot. slot < regions.slots self.old.region) }
        ensures rested { IfOk result (λ slot. ¬ Contains self.old.resting slot) }
        ensures placed { IfOk result (λ slot. self.new ≡ record {
          region = self.old.region;
          states = with_object self.old.states slot (record { elem = elem; fixed = fixed; cells = zeros size });
          resting = self.old.resting;
        }) }
        ensures unchanged { OnErr result (self.new ≡ self.old) }
    {
        law_read();
        open_spare(&mut self.store, &self.free)?;
        let Some(taken) = self.free.take()? else {
            unreachable!();
        };
        place(&mut self.store, taken, elem, size, fixed);
        self.made += 1;
        Ok(taken.slot)
    }

    /// Gives a slot back whose object dies. The slot then rests. This takes no memory.
    pub fn release(&mut self, slot: u32)
        requires { IsLive self.old slot }
        ensures { self.new ≡ record {
          region = self.old.region;
          states = set self.old.states slot (without_object (state_at self.old.states slot));
          resting = last_resting (regions.slots self.old.region) (self.old.resting ++ slot ∷ []);
        } }
    {
        law_read();
        slot_store::law_slots(&self.store);
        let header = self.store.header(slot);
        self.store.put_header(slot, &Header { kind: 0, ..header });
        self.free.give(slot);
    }

    /// The bytes at an offset of the live object as a little-endian number (C11 6.2.6.1), and none where one is a part of a
    /// pointer word.
    #[inline]
    pub fn load(&self, slot: u32, offset: u32, width: u32) -> Option<u64>
        requires live { IsLive self.now slot }
        requires width { IsWidth width }
        requires aligned { offset % width ≡ 0 }
        requires inside { OfObject self.now slot (λ o. offset + width ≤ length o.cells) }
        ensures value { OfObject self.now slot (λ o. result ≡ number_in (cells_at offset width o.cells)) }
        ensures range { IfSome result (λ n. n < 2 ^ (8 * width)) }
    {
        self.store.load(slot, HEADER + offset, width)
    }

    /// Stores the low bytes of a whole number. A pointer word round them becomes zero first.
    #[inline]
    pub fn store(&mut self, slot: u32, offset: u32, width: u32, bits: u64)
        requires live { IsLive self.old slot }
        requires width { IsWidth width }
        requires aligned { offset % width ≡ 0 }
        requires inside { OfObject self.old slot (λ o. offset + width ≤ length o.cells) }
        ensures { OfObject self.old slot (λ o. self.new ≡ with_cells_in self.old slot o (after_store offset width bits o.cells)) }
    {
        self.store.store(slot, HEADER + offset, width, bits);
    }

    /// A pointer word, 0 for eight zero bytes, and none for other bytes.
    #[inline]
    pub fn load_ptr(&self, slot: u32, offset: u32) -> Option<u64>
        requires live { IsLive self.now slot }
        requires aligned { offset % 8 ≡ 0 }
        requires inside { OfObject self.now slot (λ o. offset + 8 ≤ length o.cells) }
        ensures { OfObject self.now slot (λ o. result ≡ pointer_at offset o.cells) }
    {
        self.store.load_ptr(slot, HEADER + offset)
    }

    /// Stores a pointer word, which is a pointer value unless it is 0.
    #[inline]
    pub fn store_ptr(&mut self, slot: u32, offset: u32, word: u64)
        requires live { IsLive self.old slot }
        requires aligned { offset % 8 ≡ 0 }
        requires inside { OfObject self.old slot (λ o. offset + 8 ≤ length o.cells) }
        ensures { OfObject self.old slot (λ o. self.new ≡ with_cells_in self.old slot o (put offset (value_cells (pointer_value word)) o.cells)) }
    {
        self.store.store_ptr(slot, HEADER + offset, word);
    }

    /// Eight bytes with their mark.
    #[inline]
    pub fn load_word(&self, slot: u32, offset: u32) -> Value
        requires live { IsLive self.now slot }
        requires aligned { offset % 8 ≡ 0 }
        requires inside { OfObject self.now slot (λ o. offset + 8 ≤ length o.cells) }
        ensures { OfObject self.now slot (λ o. cells_at offset 8 o.cells ≡ value_cells result) }
    {
        self.store.load_word(slot, HEADER + offset)
    }

    /// Writes eight bytes with their mark.
    #[inline]
    pub fn store_word(&mut self, slot: u32, offset: u32, value: Value)
        requires live { IsLive self.old slot }
        requires aligned { offset % 8 ≡ 0 }
        requires inside { OfObject self.old slot (λ o. offset + 8 ≤ length o.cells) }
        ensures { OfObject self.old slot (λ o. self.new ≡ with_cells_in self.old slot o (put offset (value_cells value) o.cells)) }
    {
        self.store.store_word(slot, HEADER + offset, value);
    }
}

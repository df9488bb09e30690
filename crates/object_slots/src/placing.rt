//! Slots of a store made ready for an object.

ghost use Rattle.std.specs.Prelude.{◌≡◌, ◌+◌, ◌<◌, true, length, OnOk};
ghost use Rattle.free_slots.specs.Slots.{live_count, made_count, resting_slots};
ghost use Rattle.lowfat_regions.specs.Regions as regions;
ghost use Rattle.slot_headers.specs.Cells.{zeros};
ghost use Rattle.slot_store.specs.Slots.{made, slot_size, cells_of, with_cells};
ghost use Rattle.heap_model.specs.Objects.{max_objects};
ghost use Rattle.object_slots.specs.View.{header_in, with_header, IsOpened};

use c_types::TypeNo;
use free_slots::{FreeSlots, Taken};
use slot_headers::Header;
use slot_store::Store;
use std::alloc::AllocError;

/// Makes a spare slot where the next one to be taken was never taken: where each of those that were taken lives or rests.
pub(crate) fn open_spare(store: &mut Store, free: &FreeSlots) -> Result<(), AllocError>
    requires left { live_count free.now + length (resting_slots free.now) ≡ made_count free.now → made_count free.now < regions.slots store.old.region }
    ensures opened { IsOpened store.old store.new }
    ensures room { OnOk result (live_count free.now + length (resting_slots free.now) ≡ made_count free.now → made store.old ≡ made_count free.now
        → made_count free.now < made store.new) }
{
    let at_rest = u64::from(free.live()) + u64::from(free.resting());
    if at_rest == u64::from(free.made()) && store.made() == free.made() {
        store.open_slot()?;
    }
    Ok(())
}

/// Makes a slot zero that was taken. One that was never taken before is zero already.
fn clear(store: &mut Store, taken: Taken)
    requires made { taken.slot < made store.old }
    requires fresh { taken.fresh ≡ true → cells_of store.old taken.slot ≡ zeros (slot_size store.old) }
    ensures { store.new ≡ with_cells store.old taken.slot (zeros (slot_size store.old)) }
{
    if !taken.fresh {
        store.clear_slot(taken.slot);
    }
}

/// Places an object of zero bytes in a slot that was taken. Its version is one more than that of the slot's last object.
pub(crate) fn place(store: &mut Store, taken: Taken, elem: TypeNo, size: u32, fixed: bool)
    requires made { taken.slot < made store.old }
    requires fresh { taken.fresh ≡ true → cells_of store.old taken.slot ≡ zeros (slot_size store.old) }
    requires version { (header_in (cells_of store.old taken.slot)).version < max_objects }
    ensures { store.new ≡ with_cells store.old taken.slot (with_header (record {
      kind = elem;
      version = 1 + (header_in (cells_of store.old taken.slot)).version;
      fixed = fixed;
      size = size;
    }) (zeros (slot_size store.old))) }
{
    let version = 1 + store.header(taken.slot).version;
    clear(store, taken);
    store.put_header(
        taken.slot,
        &Header {
            kind: elem,
            version,
            fixed,
            size: u64::from(size),
        },
    );
}

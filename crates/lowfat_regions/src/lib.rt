//! The regions of addresses and their slots.
#![tactic(auto)]

mod laws;
mod regions;
mod shapes;
mod slots;
#[cfg(test)]
mod tests;

pub use laws::law_slots;
pub use regions::{
    HEADER_BYTES, MAX_OBJECT_BYTES, REGIONS, class_of, region_of, size_of_region, slots_of,
};
pub use slots::{object_address, slot_address, slot_base, slot_number};

//! That threads may take and share the heaps of all regions.

use crate::heaps::RegionHeaps;

fn takes<T: Send>() {}

fn shares<T: Sync>() {}

/// Compiles where threads may take and share them.
fn crosses_threads() {
    takes::<RegionHeaps>();
    shares::<RegionHeaps>();
}

//! That threads may take and share the heap and what its locks keep.

use crate::heap::SharedHeap;
use crate::region::HeldRegion;

fn takes<T: Send>() {}

fn shares<T: Sync>() {}

/// Compiles where threads may take them.
fn threads_take() {
    takes::<HeldRegion<'_>>();
    takes::<SharedHeap<'_>>();
}

/// Compiles where threads may share it.
fn threads_share() {
    shares::<SharedHeap<'_>>();
}

//! That threads may take and share a history and its entries.

use crate::calls::Entry;
use crate::history::History;

fn takes<T: Send>() {}

fn shares<T: Sync>() {}

/// Compiles where threads may take and share them.
fn crosses_threads() {
    takes::<Entry>();
    shares::<Entry>();
    takes::<History>();
    shares::<History>();
}

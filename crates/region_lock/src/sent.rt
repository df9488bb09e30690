//! That threads may take and share the locks and the gate, and take a pass.

use crate::gate::OpenGate;
use crate::kept::Kept;
use crate::locks::Locks;
use crate::pass::Pass;

fn takes<T: Send>() {}

fn shares<T: Sync>() {}

/// Compiles where threads may take them.
fn threads_take<V: Kept>() {
    takes::<Pass>();
    takes::<Locks<V>>();
    takes::<OpenGate>();
}

/// Compiles where threads may share them.
fn threads_share<V: Kept>() {
    shares::<Locks<V>>();
    shares::<OpenGate>();
}

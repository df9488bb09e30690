ghost use Rattle.std.specs.Prelude.{◌≡◌, ℕ, ◌<◌, ◌^◌, List, [], ◌∷◌, ◌++◌, IfOk, OnErr};
ghost use Rattle.heap_model.specs.declared.calls.Entry.{Entry};
ghost use Rattle.heap_model.specs.declared.calls.Call.{Call};
ghost use Rattle.region_lock.specs.Entries.{last_stamp, IsNextEntry};

use heap_model::{Call, Entry};
use std::alloc::AllocError;

/// A value that a region's lock keeps. Contracts see its region's number, its list of entries, and plain data that
/// decides which calls it allows.
pub trait Kept: Send + Drop {
    type Plain;

    ghost region: { Self → ℕ };

    ghost list: { Self → List Entry };

    ghost plain: { Self → Self.Plain };

    ghost allows: { Self.Plain → Call → Type 0 };

    /// Makes a worker's call, which is its `number`th, counted from 0. The worker knows no stamp above `last`.
    fn step(
        &mut self,
        worker: u32,
        number: u64,
        last: u64,
        call: &Call,
    ) -> Result<Entry, AllocError>
        requires call { allows (plain self.old) call.now }
        requires last { last < 2 ^ 63 }
        requires listed { last_stamp (list self.old) < 2 ^ 63 }
        ensures region { region self.new ≡ region self.old }
        ensures plain { plain self.new ≡ plain self.old }
        ensures list { IfOk result (λ e. list self.new ≡ list self.old ++ e ∷ []) }
        ensures entry { IfOk result (λ e.
            IsNextEntry worker number last (region self.old) (list self.old) call.now e) }
        ensures err { OnErr result (list self.new ≡ list self.old) };
}

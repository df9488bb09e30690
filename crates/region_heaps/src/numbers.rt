//! The numbers of the workers' calls.

ghost use Rattle.std.specs.Prelude.{◌≡◌, ◌≢◌, ℕ, ◌+◌, ◌^◌, ◌<◌, IsSome, IfOk, OnOk};
ghost use Rattle.std.specs.Ordering.{nat_cmp};
ghost use Rattle.std.specs.BTreeMap.{get};

use std::alloc::{AllocError, Global};
use std::collections::BTreeMap;

/// How many calls each worker has made.
#[derive(Drop)]
pub(crate) struct Numbers {
    made: BTreeMap<u32, u64>,
}

impl Numbers {
    ghost use Rattle.region_heaps.specs.Numbers.{count_of};

    /// No calls of any worker.
    pub(crate) fn new(alloc: Global) -> Numbers
        ensures { (w : ℕ) → count_of result w ≡ 0 }
    {
        Numbers {
            made: BTreeMap::new(alloc),
        }
    }

    /// The number of a worker's next call, and a place for its count.
    pub(crate) fn next(&mut self, worker: u32) -> Result<u64, AllocError>
        ensures number { IfOk result (λ number. number ≡ count_of self.old worker) }
        ensures place { OnOk result (IsSome (get nat_cmp self.new.made worker)) }
        ensures counts { (w : ℕ) → count_of self.new w ≡ count_of self.old w }
    {
        let number = self.made.get(&worker).copied().unwrap_or(0);
        self.made.insert(worker, number)?;
        Ok(number)
    }

    /// Counts a call of a worker whose count has a place.
    pub(crate) fn count(&mut self, worker: u32)
        requires place { IsSome (get nat_cmp self.old.made worker) }
        requires room { count_of self.old worker + 1 < 2 ^ 64 }
        ensures own { count_of self.new worker ≡ count_of self.old worker + 1 }
        ensures others { (w : ℕ) → w ≢ worker → count_of self.new w ≡ count_of self.old w }
    {
        if let Some(number) = self.made.get_mut(&worker) {
            *number += 1;
        }
    }
}

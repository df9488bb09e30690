//! Locks with two passes.

ghost use Rattle.std.specs.Prelude.{◌≡◌, ◌<◌, ◌≤◌, ◌^◌, IfOk};
ghost use Rattle.region_lock.specs.Known.{newcomer};
ghost use Rattle.region_lock.specs.Shown.{identity_of, regions_of, passes_of, budget_of};

use crate::counter::{Counter, counters};
use region_lock::{Locks, Pass};
use std::alloc::{AllocError, Global};

/// New locks of counters, and their two passes.
pub fn pair(
    alloc: Global,
    regions: u32,
    budget: u64,
) -> Result<(Locks<Counter>, Pass, Pass), AllocError>
    requires regions { (0 < regions) × (regions ≤ 27) }
    requires budget { budget ≤ 2 ^ 32 }
    ensures first { IfOk result (λ r. r.1 ≡ newcomer (identity_of r.0) 0) }
    ensures second { IfOk result (λ r. r.2 ≡ newcomer (identity_of r.0) 1) }
    ensures counts { IfOk result (λ r.
        (regions_of r.0 ≡ regions) × (passes_of r.0 ≡ 2) × (budget_of r.0 ≡ budget)) }
{
    let values = counters(alloc, regions)?;
    let (locks, mut passes) = Locks::new(alloc, values, 2, budget)?;
    let second = passes.pop().ok_or(AllocError)?;
    let first = passes.pop().ok_or(AllocError)?;
    Ok((locks, first, second))
}

/// The counters of locks whose two passes are back.
pub fn close(
    alloc: Global,
    locks: Locks<Counter>,
    first: Pass,
    second: Pass,
) -> Result<Vec<Counter>, AllocError>
    requires passes { passes_of locks ≡ 2 }
    requires own { (first.locks ≡ identity_of locks) × (second.locks ≡ identity_of locks) }
{
    let mut passes = Vec::new(alloc);
    passes.push(first)?;
    passes.push(second)?;
    locks.close(passes)
}

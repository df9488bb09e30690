//! The rule of the clocks.

ghost use Rattle.std.specs.Prelude.{◌≡◌, ◌<◌, ◌+◌, ◌^◌, max};

/// The stamp of a worker's next call in a region, from the last stamp of each, 0 where there is none (Lamport, "Time,
/// Clocks, and the Ordering of Events in a Distributed System", 1978).
pub fn stamp(worker_last: u64, region_last: u64) -> u64
    requires worker { worker_last < 2 ^ 63 }
    requires region { region_last < 2 ^ 63 }
    ensures value { result ≡ max worker_last region_last + 1 }
    ensures above_worker { worker_last < result }
    ensures above_region { region_last < result }
{
    worker_last.max(region_last) + 1
}

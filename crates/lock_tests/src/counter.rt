ghost use Rattle.std.specs.Prelude.{◌≡◌, true, [], vec_len, IfOk};
ghost use Rattle.heap_model.specs.Forms.{suits_call};
ghost use Rattle.heap_model.specs.declared.calls.Reply.TheVariants.{Done};
ghost use Rattle.region_lock.specs.Entries.{last_stamp};
ghost use Rattle.lock_tests.specs.Fresh.{IsFresh};

use heap_model::{Call, Entry, Reply};
use region_lock::Kept;
use std::alloc::{AllocError, Global};

/// A number that grows by one amount at each step, with the list of its steps. It allows the calls to which "done" is a
/// reply.
#[derive(Drop)]
pub struct Counter {
    pub region: u32,
    pub entries: Vec<Entry>,
    pub amount: u64,
    pub total: u64,
}

fn last_of(entries: &[Entry]) -> u64
    ensures { result ≡ last_stamp entries.now }
{
    match entries.last() {
        Some(entry) => entry.stamp,
        None => 0,
    }
}

impl Kept for Counter {
    type Plain = u64;

    ghost region = { λ s. s.region };

    ghost list = { λ s. s.entries.items };

    ghost plain = { λ s. s.amount };

    ghost allows = { λ amount call. suits_call call Done ≡ true };

    fn step(
        &mut self,
        worker: u32,
        number: u64,
        last: u64,
        call: &Call,
    ) -> Result<Entry, AllocError> {
        self.entries.reserve(1)?;
        let entry = Entry {
            worker,
            number,
            stamp: last.max(last_of(self.entries.as_slice())) + 1,
            region: self.region,
            call: *call,
            reply: Reply::Done,
        };
        self.entries.push_reserved(entry);
        self.total = self.total.wrapping_add(self.amount);
        Ok(entry)
    }
}

/// The call that the counters are asked.
pub const ASKED: Call = Call::Free { p: 0, fixed: false };

/// The counter of a region, without steps, which grows by 1.
pub fn new_counter(alloc: Global, region: u32) -> Counter
    ensures region { result.region ≡ region }
    ensures entries { result.entries.items ≡ [] }
{
    Counter {
        region,
        entries: Vec::new(alloc),
        amount: 1,
        total: 0,
    }
}

/// Counters without steps, of the regions from 1 on.
pub fn counters(alloc: Global, count: u32) -> Result<Vec<Counter>, AllocError>
    ensures count { IfOk result (λ v. vec_len v ≡ count) }
    ensures fresh { IfOk result (λ v. IsFresh (λ s. s.region) (λ s. s.entries.items) v.items) }
{
    let mut values = Vec::new(alloc);
    for at in 0..count {
        values.push(new_counter(alloc, at + 1))?;
    }
    Ok(values)
}

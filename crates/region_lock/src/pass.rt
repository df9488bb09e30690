ghost use Rattle.std.specs.Prelude.{◌≡◌, [], length};
ghost use Rattle.region_lock.specs.Passes.{pass_view};
ghost use Rattle.region_lock.specs.Known.{newcomer};

use crate::view::View;
use atomic_table::{Badge, Seat};
use std::marker::Model;

/// What one worker holds, to make calls with. Contracts see which locks it is of, its number, the list of entries that
/// it made, and its last stamp.
#[derive(Drop)]
pub struct Pass {
    pub(crate) badge: Badge<View>,
    pub(crate) worker: u32,
    pub(crate) made: u64,
    pub(crate) last: u64,
}

impl Model for Pass {
    ghost use Rattle.region_lock.specs.Known.{Known};

    ghost Value = { Known };

    ghost use Rattle.region_lock.specs.Inside.{known, IsPass};

    ghost view = { known };

    ghost invariant = { IsPass };
}

impl Pass {
    /// The number of the pass, counted from 0.
    pub fn worker(&self) -> u32
        ensures { result ≡ self.now.worker }
    {
        self.worker
    }

    /// How many entries the pass made.
    pub fn made(&self) -> u64
        ensures { result ≡ length self.now.list }
    {
        self.made
    }

    /// The last stamp that the pass knows, which the next step is told.
    pub fn last(&self) -> u64
        ensures { result ≡ self.now.last }
    {
        self.last
    }
}

// The pass of a seat that has made nothing yet.
pub(crate) fn seated<S>(seat: Seat<S, View>, worker: u32) -> Pass
    requires { seat.me ≡ (pass_view worker [] 0, []) }
    ensures { result ≡ newcomer seat.table_id worker }
{
    Pass {
        badge: seat.into_badge(),
        worker,
        made: 0,
        last: 0,
    }
}

pub(crate) fn seat_of<S>(pass: Pass) -> Seat<S, View>
    ensures { (result.table_id ≡ pass.locks) × (result.me ≡ (pass_view pass.worker pass.list pass.last, [])) }
{
    let Pass {
        badge,
        worker: _,
        made: _,
        last: _,
    } = pass;
    badge.into_seat()
}

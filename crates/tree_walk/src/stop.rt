//! Why a worker goes no further.

ghost use Rattle.std.specs.Prelude.{◌≡◌};
ghost use Rattle.tree_walk.specs.declared.stop.Stop.TheVariants.{Memory};

use plain_meaning::Ending;
use std::alloc::AllocError;

/// A worker has ended, or is out of memory.
#[derive(Debug, Drop)]
pub(crate) enum Stop {
    Ended(Ending),
    Memory(AllocError),
}

impl From<AllocError> for Stop {
    ghost from_gives = { λ error stop. stop ≡ Memory error };

    fn from(error: AllocError) -> Stop {
        Stop::Memory(error)
    }
}

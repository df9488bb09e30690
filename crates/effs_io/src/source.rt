//! Where bytes come from.
ghost use Rattle.std.specs.Prelude.{◌≡◌, ℕ, ◌<◌, ◌≤◌, List, length, Option, IfSome, IfOk, OnErr};
ghost use Rattle.effs_io.specs.Streams.{Rose, GaveFirst, Moves, Stays, NoneLeft};

use thiserror::Error;

/// A source could not give bytes, or a sink could not take them.
#[derive(Clone, Copy, Debug, PartialEq, Eq, Error)]
#[error("the stream failed")]
pub struct Failed;

/// Bytes that are read once, from the first to the last.
pub trait Source {
    /// The bytes left, where the type tells them.
    ghost left: { Self → Option (List ℕ) };

    /// How many faults there were.
    ghost faults: { Self → ℕ };

    /// Reads the next bytes into the front of `buf`, and answers how many. `Ok(0)` at a buffer
    /// with room is the end.
    fn read(&mut self, buf: &mut [u8]) -> Result<usize, Failed>
        ensures within { IfOk result (λ n. n ≤ length buf.new) }
        ensures given { IfOk result (λ n. IfSome (left self.old) (λ bytes. GaveFirst n bytes buf.new)) }
        ensures moved { IfOk result (λ n. Moves n (left self.old) (left self.new)) }
        ensures end { IfOk result (λ n. n ≡ 0 → 0 < length buf.new → NoneLeft (left self.old)) }
        ensures kept { OnErr result (Stays (left self.old) (left self.new)) }
        ensures fault { OnErr result (Rose (faults self.old) (faults self.new)) }
        ensures never_falls { faults self.old ≤ faults self.new };
}

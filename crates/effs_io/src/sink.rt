//! Where bytes go.
ghost use Rattle.std.specs.Prelude.{◌≡◌, ℕ, ◌<◌, ◌≤◌, List, length, take, Option, IfOk, OnErr};
ghost use Rattle.effs_io.specs.Streams.{Rose, Appends, Stays};

use crate::source::Failed;

/// What takes bytes, each after those before it.
pub trait Sink {
    /// The bytes taken, where the type tells them.
    ghost taken: { Self → Option (List ℕ) };

    /// How many faults there were.
    ghost faults: { Self → ℕ };

    /// Takes bytes from the front of `buf`, and answers how many.
    fn write(&mut self, buf: &[u8]) -> Result<usize, Failed>
        ensures within { IfOk result (λ n. n ≤ length buf.now) }
        ensures took { IfOk result (λ n. Appends (take n buf.now) (taken self.old) (taken self.new)) }
        ensures none { IfOk result (λ n. n ≡ 0 → 0 < length buf.now → Rose (faults self.old) (faults self.new)) }
        ensures kept { OnErr result (Stays (taken self.old) (taken self.new)) }
        ensures fault { OnErr result (Rose (faults self.old) (faults self.new)) }
        ensures never_falls { faults self.old ≤ faults self.new };
}

//! A source and a sink that never fail, for runs whose streams are of no interest.
ghost use Rattle.std.specs.Prelude.{◌≡◌, ℕ, ◌<◌, ◌≤◌, min, length, take, drop, Some, None, IsOkAnd};
ghost use Rattle.effs_io.specs.Streams.{Rose, GaveFirst, Moves, Stays, NoneLeft, Appends};

use crate::sink::Sink;
use crate::source::{Failed, Source};

/// Gives all its bytes, and never fails.
#[derive(Drop)]
pub struct CalmSource<'a> {
    bytes: &'a [u8],
}

impl<'a> CalmSource<'a> {
    pub fn new(bytes: &'a [u8]) -> CalmSource<'a>
        ensures left { ⟦<CalmSource<'a> as Source>⟧.left result ≡ Some bytes.now }
        ensures calm { (later : _) → ⟦<CalmSource<'a> as Source>⟧.faults later ≡ 0 }
    {
        CalmSource { bytes }
    }
}

impl<'a> Source for CalmSource<'a> {
    ghost left = { λ s. Some s.bytes.now };

    ghost faults = { λ _. 0 };

    fn read(&mut self, buf: &mut [u8]) -> Result<usize, Failed> {
        let count = self.bytes.len().min(buf.len());
        let (next, later) = self.bytes.split_at(count);
        buf[..count].copy_from_slice(next);
        self.bytes = later;
        Ok(count)
    }
}

/// Takes every byte and keeps none, and never fails.
#[derive(Drop)]
pub struct CalmSink;

impl CalmSink {
    pub fn new() -> CalmSink
        ensures { (later : _) → ⟦<CalmSink as Sink>⟧.faults later ≡ 0 }
    {
        CalmSink
    }
}

impl Sink for CalmSink {
    ghost taken = { λ _. None };

    ghost faults = { λ _. 0 };

    fn write(&mut self, buf: &[u8]) -> Result<usize, Failed> {
        Ok(buf.len())
    }
}

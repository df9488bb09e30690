//! Sources and sinks over the readers and writers of `std`, as files and the terminal.
ghost use Rattle.std.specs.Prelude.{◌≡◌, ℕ, ◌<◌, ◌≤◌, length, take, IfSome, IfOk, OnOk, OnErr};
ghost use Rattle.effs_io.specs.Streams.{Rose, GaveFirst, Moves, Stays, NoneLeft, Appends, next_count};

use crate::sink::Sink;
use crate::source::{Failed, Source};
use std::io::{Read, Write};

/// Reads from a reader of `std`. Its count of faults rises at each error, and stays at
/// `u64::MAX`.
#[derive(Drop)]
pub struct InSource<T> {
    reader: T,
    faults: u64,
}

impl<T: Read> InSource<T> {
    pub fn new(reader: T) -> InSource<T>
        ensures left { ⟦<InSource<T> as Source>⟧.left result ≡ T.remaining reader }
        ensures calm { ⟦<InSource<T> as Source>⟧.faults result ≡ 0 }
    {
        InSource { reader, faults: 0 }
    }
}

impl<T: Read> Source for InSource<T> {
    ghost left = { λ s. T.remaining s.reader };

    ghost faults = { λ s. s.faults };

    fn read(&mut self, buf: &mut [u8]) -> Result<usize, Failed>
        ensures within { IfOk result (λ n. n ≤ length buf.new) }
        ensures given { IfOk result (λ n. IfSome (⟦<InSource<T> as Source>⟧.left self.old)
            (λ bytes. GaveFirst n bytes buf.new)) }
        ensures moved { IfOk result (λ n.
            Moves n (⟦<InSource<T> as Source>⟧.left self.old) (⟦<InSource<T> as Source>⟧.left self.new)) }
        ensures end { IfOk result (λ n. n ≡ 0 → 0 < length buf.new
            → NoneLeft (⟦<InSource<T> as Source>⟧.left self.old)) }
        ensures kept { OnErr result (Stays (⟦<InSource<T> as Source>⟧.left self.old) (⟦<InSource<T> as Source>⟧.left self.new)) }
        ensures fault { OnErr result (Rose (⟦<InSource<T> as Source>⟧.faults self.old) (⟦<InSource<T> as Source>⟧.faults self.new)) }
        ensures never_falls { ⟦<InSource<T> as Source>⟧.faults self.old ≤ ⟦<InSource<T> as Source>⟧.faults self.new }

        // Each error is one fault, and nothing else is.
        ensures counted { OnErr result (⟦<InSource<T> as Source>⟧.faults self.new ≡ next_count (⟦<InSource<T> as Source>⟧.faults self.old)) }
        ensures calm { OnOk result (⟦<InSource<T> as Source>⟧.faults self.new ≡ ⟦<InSource<T> as Source>⟧.faults self.old) }
    {
        match self.reader.read(buf) {
            Ok(count) => Ok(count),
            Err(_) => {
                self.faults = self.faults.saturating_add(1);
                Err(Failed)
            }
        }
    }
}

/// Writes to a writer of `std`. Its count of faults rises at each error, and at each write that
/// takes nothing of a piece that is not empty, and stays at `u64::MAX`.
#[derive(Drop)]
pub struct OutSink<T> {
    writer: T,
    faults: u64,
}

impl<T: Write> OutSink<T> {
    pub fn new(writer: T) -> OutSink<T>
        ensures taken { ⟦<OutSink<T> as Sink>⟧.taken result ≡ T.contents writer }
        ensures calm { ⟦<OutSink<T> as Sink>⟧.faults result ≡ 0 }
    {
        OutSink { writer, faults: 0 }
    }

    /// The writer, which its owner may have to flush.
    pub fn into_inner(self) -> T
        ensures { T.contents result ≡ ⟦<OutSink<T> as Sink>⟧.taken self }
    {
        let OutSink { writer, faults: _ } = self;
        writer
    }
}

impl<T: Write> Sink for OutSink<T> {
    ghost taken = { λ s. T.contents s.writer };

    ghost faults = { λ s. s.faults };

    fn write(&mut self, buf: &[u8]) -> Result<usize, Failed>
        ensures within { IfOk result (λ n. n ≤ length buf.now) }
        ensures took { IfOk result (λ n.
            Appends (take n buf.now) (⟦<OutSink<T> as Sink>⟧.taken self.old) (⟦<OutSink<T> as Sink>⟧.taken self.new)) }
        ensures none { IfOk result (λ n. n ≡ 0 → 0 < length buf.now
            → Rose (⟦<OutSink<T> as Sink>⟧.faults self.old) (⟦<OutSink<T> as Sink>⟧.faults self.new)) }
        ensures kept { OnErr result (Stays (⟦<OutSink<T> as Sink>⟧.taken self.old) (⟦<OutSink<T> as Sink>⟧.taken self.new)) }
        ensures fault { OnErr result (Rose (⟦<OutSink<T> as Sink>⟧.faults self.old) (⟦<OutSink<T> as Sink>⟧.faults self.new)) }
        ensures never_falls { ⟦<OutSink<T> as Sink>⟧.faults self.old ≤ ⟦<OutSink<T> as Sink>⟧.faults self.new }

        // Each error is one fault, and so is a write that takes nothing; nothing else is.
        ensures counted { OnErr result (⟦<OutSink<T> as Sink>⟧.faults self.new ≡ next_count (⟦<OutSink<T> as Sink>⟧.faults self.old)) }
        ensures counted_none { IfOk result (λ n. n ≡ 0 → 0 < length buf.now
            → ⟦<OutSink<T> as Sink>⟧.faults self.new ≡ next_count (⟦<OutSink<T> as Sink>⟧.faults self.old)) }
        ensures calm { IfOk result (λ n. 0 < n → ⟦<OutSink<T> as Sink>⟧.faults self.new ≡ ⟦<OutSink<T> as Sink>⟧.faults self.old) }
        ensures calm_empty { length buf.now ≡ 0 → OnOk result (⟦<OutSink<T> as Sink>⟧.faults self.new ≡ ⟦<OutSink<T> as Sink>⟧.faults self.old) }
    {
        match self.writer.write(buf) {
            Ok(count) => {
                if count == 0 && !buf.is_empty() {
                    self.faults = self.faults.saturating_add(1);
                }
                Ok(count)
            }
            Err(_) => {
                self.faults = self.faults.saturating_add(1);
                Err(Failed)
            }
        }
    }
}

//! A source and a sink in memory that fail at calls of one's choice, for tests.
ghost use Rattle.std.specs.Prelude.{◌≡◌, ℕ, ◌+◌, ◌-◌, ◌^◌, ◌<◌, ◌≤◌, ◌↔◌, min, List, [], length, take, Some, IfSome, IfOk, OnOk, OnErr, IsErr, IsTrue, Contains, vec_len, vec_capacity};
ghost use Rattle.effs_io.specs.Streams.{Rose, GaveFirst, Moves, Stays, NoneLeft, Appends, next_count};

use crate::sink::Sink;
use crate::source::{Failed, Source};
use std::alloc::{AllocError, Global};

/// What a stream in memory was told, and how often it was called.
pub trait Scripted {
    /// The most bytes of one call.
    ghost piece: { Self → ℕ };

    /// The calls that fail, counted from 1.
    ghost fail: { Self → List ℕ };

    /// How many calls there were.
    ghost calls: { Self → ℕ };
}

/// Which bytes a sink in memory leaves.
pub trait Limited {
    /// How many bytes it takes in all.
    ghost size: { Self → ℕ };

    /// The calls that take nothing, counted from 1.
    ghost empty: { Self → List ℕ };
}

/// Gives the bytes of a slice, a few at each call, and fails at the calls that it was told.
#[derive(Drop)]
pub struct MemSource<'a> {
    bytes: &'a [u8],
    piece: u32,
    fail: &'a [u32],
    calls: u64,
    faults: u64,
    ghost gives_some: { 1 ≤ piece },
}

impl<'a> MemSource<'a> {
    /// `piece`: the most bytes of one read. `fail`: the reads that fail, counted from 1.
    pub fn new(bytes: &'a [u8], piece: u32, fail: &'a [u32]) -> MemSource<'a>
        requires { 1 ≤ piece }
        ensures left { ⟦<MemSource<'a> as Source>⟧.left result ≡ Some bytes.now }
        ensures calm { ⟦<MemSource<'a> as Source>⟧.faults result ≡ 0 }
        ensures piece { ⟦<MemSource<'a> as Scripted>⟧.piece result ≡ piece }
        ensures fail { ⟦<MemSource<'a> as Scripted>⟧.fail result ≡ fail.now }
        ensures calls { ⟦<MemSource<'a> as Scripted>⟧.calls result ≡ 0 }
    {
        MemSource {
            bytes,
            piece,
            fail,
            calls: 0,
            faults: 0,
        }
    }
}

impl<'a> Scripted for MemSource<'a> {
    ghost piece = { λ s. s.piece };

    ghost fail = { λ s. s.fail.now };

    ghost calls = { λ s. s.calls };
}

impl<'a> Source for MemSource<'a> {
    ghost left = { λ s. Some s.bytes.now };

    ghost faults = { λ s. s.faults };

    fn read(&mut self, buf: &mut [u8]) -> Result<usize, Failed>
        ensures within { IfOk result (λ n. n ≤ length buf.new) }
        ensures given { IfOk result (λ n. IfSome (⟦<MemSource<'a> as Source>⟧.left self.old)
            (λ bytes. GaveFirst n bytes buf.new)) }
        ensures moved { IfOk result (λ n.
            Moves n (⟦<MemSource<'a> as Source>⟧.left self.old) (⟦<MemSource<'a> as Source>⟧.left self.new)) }
        ensures end { IfOk result (λ n.
            n ≡ 0 → 0 < length buf.new → NoneLeft (⟦<MemSource<'a> as Source>⟧.left self.old)) }
        ensures kept { OnErr result
            (Stays (⟦<MemSource<'a> as Source>⟧.left self.old) (⟦<MemSource<'a> as Source>⟧.left self.new)) }
        ensures fault { OnErr result
            (Rose (⟦<MemSource<'a> as Source>⟧.faults self.old) (⟦<MemSource<'a> as Source>⟧.faults self.new)) }
        ensures never_falls { ⟦<MemSource<'a> as Source>⟧.faults self.old
            ≤ ⟦<MemSource<'a> as Source>⟧.faults self.new }

        // What it was told.
        ensures called { ⟦<MemSource<'a> as Scripted>⟧.calls self.new
            ≡ next_count (⟦<MemSource<'a> as Scripted>⟧.calls self.old) }
        ensures listed { IsErr result
            ↔ Contains (⟦<MemSource<'a> as Scripted>⟧.fail self.old) (⟦<MemSource<'a> as Scripted>⟧.calls self.new) }
        ensures share { IfOk result (λ n. IfSome (⟦<MemSource<'a> as Source>⟧.left self.old) (λ bytes.
            n ≡ min (min (length buf.new) (⟦<MemSource<'a> as Scripted>⟧.piece self.old)) (length bytes))) }
        ensures calm { OnOk result (⟦<MemSource<'a> as Source>⟧.faults self.new
            ≡ ⟦<MemSource<'a> as Source>⟧.faults self.old) }
        ensures same_piece { ⟦<MemSource<'a> as Scripted>⟧.piece self.new
            ≡ ⟦<MemSource<'a> as Scripted>⟧.piece self.old }
        ensures same_fail { ⟦<MemSource<'a> as Scripted>⟧.fail self.new
            ≡ ⟦<MemSource<'a> as Scripted>⟧.fail self.old }
    {
        self.calls = self.calls.saturating_add(1);
        if is_listed(self.fail, self.calls) {
            self.faults = self.faults.saturating_add(1);
            return Err(Failed);
        }
        let most = buf.len().min(self.piece as usize);
        let (next, later) = self.bytes.split_at(most.min(self.bytes.len()));
        buf[..next.len()].copy_from_slice(next);
        self.bytes = later;
        Ok(next.len())
    }
}

/// Keeps the bytes that it takes, a few at each call, up to a size that it was given, and fails
/// at the calls that it was told.
#[derive(Drop)]
pub struct MemSink {
    bytes: Vec<u8>,
    size: u32,
    piece: u32,
    fail: Vec<u32>,
    empty: Vec<u32>,
    calls: u64,
    faults: u64,
    ghost takes_some: { 1 ≤ piece },
    ghost within: { vec_len bytes ≤ size },
    ghost has_room: { size ≤ vec_capacity bytes },
}

impl MemSink {
    /// Takes memory for `size` bytes and for the lists, and none later. `piece`: the most bytes
    /// of one write. `fail`, `empty`: the writes that fail, and that take nothing, counted from 1.
    pub fn new(
        alloc: Global,
        size: u32,
        piece: u32,
        fail: &[u32],
        empty: &[u32],
    ) -> Result<MemSink, AllocError>
        requires { 1 ≤ piece }
        ensures taken { IfOk result (λ sink. ⟦<MemSink as Sink>⟧.taken sink ≡ Some []) }
        ensures calm { IfOk result (λ sink. ⟦<MemSink as Sink>⟧.faults sink ≡ 0) }
        ensures piece { IfOk result (λ sink. ⟦<MemSink as Scripted>⟧.piece sink ≡ piece) }
        ensures fail { IfOk result (λ sink. ⟦<MemSink as Scripted>⟧.fail sink ≡ fail.now) }
        ensures calls { IfOk result (λ sink. ⟦<MemSink as Scripted>⟧.calls sink ≡ 0) }
        ensures size { IfOk result (λ sink. ⟦<MemSink as Limited>⟧.size sink ≡ size) }
        ensures empty { IfOk result (λ sink. ⟦<MemSink as Limited>⟧.empty sink ≡ empty.now) }
    {
        let bytes = Vec::with_capacity(alloc, size as usize)?;
        let fail = fail.to_vec(alloc)?;
        let empty = empty.to_vec(alloc)?;
        Ok(MemSink {
            bytes,
            size,
            piece,
            fail,
            empty,
            calls: 0,
            faults: 0,
        })
    }

    /// The bytes that it took.
    pub fn taken(&self) -> &[u8]
        ensures { ⟦<MemSink as Sink>⟧.taken self.now ≡ Some result.now }
    {
        self.bytes.as_slice()
    }

    /// How many faults there were.
    pub fn faults(&self) -> u64
        ensures { result ≡ ⟦<MemSink as Sink>⟧.faults self.now }
    {
        self.faults
    }

    /// How many bytes the present call takes of a piece of `asked` bytes.
    fn share(&self, asked: usize) -> usize
        ensures room { vec_len self.now.bytes + result ≤ self.now.size }
        ensures empty { Contains self.now.empty.items self.now.calls → result ≡ 0 }
        ensures share { ¬ (Contains self.now.empty.items self.now.calls)
            → result ≡ min (min asked self.now.piece) (self.now.size - vec_len self.now.bytes) }
        ensures within { result ≤ asked }
    {
        if is_listed(self.empty.as_slice(), self.calls) {
            return 0;
        }
        let room = self.size as usize - self.bytes.len();
        asked.min(self.piece as usize).min(room)
    }
}

impl Scripted for MemSink {
    ghost piece = { λ s. s.piece };

    ghost fail = { λ s. s.fail.items };

    ghost calls = { λ s. s.calls };
}

impl Limited for MemSink {
    ghost size = { λ s. s.size };

    ghost empty = { λ s. s.empty.items };
}

impl Sink for MemSink {
    ghost taken = { λ s. Some s.bytes.items };

    ghost faults = { λ s. s.faults };

    fn write(&mut self, buf: &[u8]) -> Result<usize, Failed>
        ensures within { IfOk result (λ n. n ≤ length buf.now) }
        ensures took { IfOk result (λ n.
            Appends (take n buf.now) (⟦<MemSink as Sink>⟧.taken self.old) (⟦<MemSink as Sink>⟧.taken self.new)) }
        ensures none { IfOk result (λ n. n ≡ 0 → 0 < length buf.now
            → Rose (⟦<MemSink as Sink>⟧.faults self.old) (⟦<MemSink as Sink>⟧.faults self.new)) }
        ensures kept { OnErr result
            (Stays (⟦<MemSink as Sink>⟧.taken self.old) (⟦<MemSink as Sink>⟧.taken self.new)) }
        ensures fault { OnErr result
            (Rose (⟦<MemSink as Sink>⟧.faults self.old) (⟦<MemSink as Sink>⟧.faults self.new)) }
        ensures never_falls { ⟦<MemSink as Sink>⟧.faults self.old ≤ ⟦<MemSink as Sink>⟧.faults self.new }

        // What it was told.
        ensures called { ⟦<MemSink as Scripted>⟧.calls self.new
            ≡ next_count (⟦<MemSink as Scripted>⟧.calls self.old) }
        ensures listed { IsErr result
            ↔ Contains (⟦<MemSink as Scripted>⟧.fail self.old) (⟦<MemSink as Scripted>⟧.calls self.new) }
        ensures empty { Contains (⟦<MemSink as Limited>⟧.empty self.old) (⟦<MemSink as Scripted>⟧.calls self.new)
            → IfOk result (λ n. n ≡ 0) }
        ensures share { ¬ (Contains (⟦<MemSink as Limited>⟧.empty self.old) (⟦<MemSink as Scripted>⟧.calls self.new))
            → IfOk result (λ n. IfSome (⟦<MemSink as Sink>⟧.taken self.old) (λ taken.
            n ≡ min (min (length buf.now) (⟦<MemSink as Scripted>⟧.piece self.old))
            (⟦<MemSink as Limited>⟧.size self.old - length taken))) }
        ensures calm { IfOk result (λ n.
            0 < n → ⟦<MemSink as Sink>⟧.faults self.new ≡ ⟦<MemSink as Sink>⟧.faults self.old) }
        ensures calm_empty { length buf.now ≡ 0 → OnOk result
            (⟦<MemSink as Sink>⟧.faults self.new ≡ ⟦<MemSink as Sink>⟧.faults self.old) }
        ensures same_piece { ⟦<MemSink as Scripted>⟧.piece self.new ≡ ⟦<MemSink as Scripted>⟧.piece self.old }
        ensures same_fail { ⟦<MemSink as Scripted>⟧.fail self.new ≡ ⟦<MemSink as Scripted>⟧.fail self.old }
        ensures same_size { ⟦<MemSink as Limited>⟧.size self.new ≡ ⟦<MemSink as Limited>⟧.size self.old }
        ensures same_empty { ⟦<MemSink as Limited>⟧.empty self.new ≡ ⟦<MemSink as Limited>⟧.empty self.old }
    {
        self.calls = self.calls.saturating_add(1);
        if is_listed(self.fail.as_slice(), self.calls) {
            self.faults = self.faults.saturating_add(1);
            return Err(Failed);
        }
        let count = self.share(buf.len());
        if count == 0 && !buf.is_empty() {
            self.faults = self.faults.saturating_add(1);
        }
        self.bytes.extend_from_slice(&buf[..count]).unwrap();
        Ok(count)
    }
}

/// Whether a call is in a list of calls.
fn is_listed(calls: &[u32], call: u64) -> bool
    ensures { IsTrue result ↔ Contains calls.now call }
{
    calls.iter().any(|listed| u64::from(*listed) == call)
}

//! Whole texts, read from a source and written to a sink.
ghost use Rattle.std.specs.Prelude.{◌≡◌, ℕ, ◌+◌, ◌<◌, ◌≤◌, ◌^◌, [], length, alloc_error, vec_len, IfSome, IfOk, OnOk, OnErr, IsErr, IsErrOf, IsSome};
ghost use Rattle.effs_io.specs.Streams.{Rose, Gave, GaveSome, Appends, AppendsSome, max_text};
ghost use Rattle.effs_io.specs.declared.transfer.ReadError.TheVariants.{Memory, Fault};

use crate::sink::Sink;
use crate::source::{Failed, Source};
use std::alloc::{AllocError, AllocFailed, Global};
use thiserror::Error;

/// The most bytes that a source text may have.
pub const MAX_SOURCE_BYTES: u64 = 1_048_576;

/// How many bytes are read at a time.
const PIECE: usize = 4096;

/// Why a source was not read to its end.
#[derive(Debug, Drop, Error)]
pub enum ReadError {
    #[error("out of memory")]
    Memory(AllocError),
    #[error("the source failed")]
    Fault,
    #[error("more bytes than the limit")]
    TooLarge,
}

impl From<AllocError> for ReadError {
    ghost from_gives = { λ e r. r ≡ Memory e };

    fn from(e: AllocError) -> ReadError {
        ReadError::Memory(e)
    }
}

impl<T: Drop> From<AllocFailed<T>> for ReadError {
    ghost from_gives = { λ _ e. e ≡ Memory alloc_error };

    fn from(_e: AllocFailed<T>) -> ReadError {
        ReadError::Memory(AllocError)
    }
}

impl From<Failed> for ReadError {
    ghost from_gives = { λ _ e. e ≡ Fault };

    fn from(_e: Failed) -> ReadError {
        ReadError::Fault
    }
}

/// Reads a source to its end, in pieces. It asks for one byte more than `limit`, which is the most that an answer has.
pub fn read_up_to<S: Source>(alloc: Global, src: &mut S, limit: u64) -> Result<Vec<u8>, ReadError>
    requires { limit ≤ 2 ^ 32 }
    ensures all { IfOk result (λ bytes. IfSome (S.left src.old) (λ told. bytes.items ≡ told)) }
    ensures end { OnOk result (IfSome (S.left src.old) (λ _. S.left src.new ≡ Some [])) }
    ensures small { IfOk result (λ bytes. vec_len bytes ≤ limit) }
    ensures fault { IsErrOf result Fault → Rose (S.faults src.old) (S.faults src.new) }
    // So many bytes were given, and no more were asked for.
    ensures too_large { IsErrOf result ReadError.TooLarge → Gave (limit + 1) (S.left src.old) (S.left src.new) }
    ensures refused { IfSome (S.left src.old) (λ told. limit < length told → IsErr result) }
    ensures rest { OnErr result (GaveSome (limit + 1) (S.left src.old) (S.left src.new)) }
    ensures told { IsSome (S.left src.old) → IsSome (S.left src.new) }
    ensures never_falls { S.faults src.old ≤ S.faults src.new }
{
    let limit = limit as usize;
    let mut bytes = Vec::new(alloc);
    let mut buffer = [0; PIECE];
    loop {
        let room = PIECE.min(limit + 1 - bytes.len());
        let count = src.read(&mut buffer[..room])?;
        if count == 0 {
            return Ok(bytes);
        }
        bytes.extend_from_slice(&buffer[..count])?;
        if bytes.len() > limit {
            return Err(ReadError::TooLarge);
        }
    }
}

/// Reads a text to its end, which may have 1,048,576 bytes.
pub fn read_all<S: Source>(alloc: Global, src: &mut S) -> Result<Vec<u8>, ReadError>
    ensures all { IfOk result (λ bytes. IfSome (S.left src.old) (λ told. bytes.items ≡ told)) }
    ensures end { OnOk result (IfSome (S.left src.old) (λ _. S.left src.new ≡ Some [])) }
    ensures small { IfOk result (λ bytes. vec_len bytes ≤ max_text) }
    ensures fault { IsErrOf result Fault → Rose (S.faults src.old) (S.faults src.new) }
    // So many bytes were given, and no more were asked for.
    ensures too_large { IsErrOf result ReadError.TooLarge → Gave (max_text + 1) (S.left src.old) (S.left src.new) }
    ensures refused { IfSome (S.left src.old) (λ told. max_text < length told → IsErr result) }
    ensures rest { OnErr result (GaveSome (max_text + 1) (S.left src.old) (S.left src.new)) }
    ensures told { IsSome (S.left src.old) → IsSome (S.left src.new) }
    ensures never_falls { S.faults src.old ≤ S.faults src.new }
{
    read_up_to(alloc, src, MAX_SOURCE_BYTES)
}

/// Writes all of `bytes`, in as many pieces as the sink takes. An empty text needs no write.
pub fn write_all<O: Sink>(out: &mut O, bytes: &[u8]) -> Result<(), Failed>
    ensures all { OnOk result (Appends bytes.now (O.taken out.old) (O.taken out.new)) }
    ensures part { OnErr result (AppendsSome bytes.now (O.taken out.old) (O.taken out.new)) }
    ensures fault { OnErr result (Rose (O.faults out.old) (O.faults out.new)) }
    ensures never_falls { O.faults out.old ≤ O.faults out.new }
    ensures nothing { bytes.now ≡ [] → out.new ≡ out.old }
{
    let mut done = 0;
    while done < bytes.len() {
        let count = out.write(&bytes[done..])?;
        if count == 0 {
            return Err(Failed);
        }
        done += count;
    }
    Ok(())
}

//! Why there is no answer, and the line that says so.

ghost use Rattle.std.specs.Prelude.{◌≡◌, ◌≤◌, ◌++◌, Option, codes, OnOk, OnErr};
ghost use Rattle.effsan_top.specs.declared.refusal.Refusal.TheVariants.{OutOfMemory};
ghost use Rattle.effs_io.specs.Streams.{Rose, Appends, AppendsSome};
ghost use Rattle.effs_words.specs.Names.{error_name, error_place};
ghost use Rattle.std.specs.Fmt.{decimal};
ghost use Rattle.effsan_top.specs.Faults.{fault_name};
ghost use Rattle.effsan_top.specs.Lines.{status_of, line_of, fault_line, missing_line, place_text, words_line};

use crate::faults::{Fault, FaultKind};
use crate::program::ProgramError;
use crate::statuses::{
    OUT_OF_MEMORY, READ_FAULT, TEXT_REFUSED, TOO_LARGE, WORDS_REFUSED, WRITE_FAULT,
};
use byte_texts::Text;
use effs_io::{Failed, ReadError, Sink, write_all};
use effs_words::WordError;
use itoa::Buffer;
use std::alloc::AllocError;

/// Why there is no answer, or only a part of it.
#[derive(Debug, Drop)]
pub enum Refusal {
    /// The first bad word, or a command or a watcher that the call cannot serve.
    Words(WordError),
    /// The words ask for something that is not built yet.
    NotYet,
    ReadFault,
    TooLarge,
    /// The text has no program.
    Faulty(Fault),
    /// No function has this name.
    NotFound(Text),
    OutOfMemory,
    WriteFault,
}

impl From<AllocError> for Refusal {
    ghost from_gives = { λ _ r. r ≡ OutOfMemory };

    fn from(_e: AllocError) -> Refusal {
        Refusal::OutOfMemory
    }
}

impl From<ProgramError> for Refusal {
    ghost use Rattle.effsan_top.specs.Errors.{of_program};

    ghost from_gives = { λ e r. r ≡ of_program e };

    fn from(error: ProgramError) -> Refusal {
        match error {
            ProgramError::Memory => Refusal::OutOfMemory,
            ProgramError::Faulty(fault) => Refusal::Faulty(fault),
        }
    }
}

impl From<ReadError> for Refusal {
    ghost use Rattle.effsan_top.specs.Errors.{of_read};

    ghost from_gives = { λ e r. r ≡ of_read e };

    fn from(error: ReadError) -> Refusal {
        match error {
            ReadError::Memory(_) => Refusal::OutOfMemory,
            ReadError::Fault => Refusal::ReadFault,
            ReadError::TooLarge => Refusal::TooLarge,
        }
    }
}

impl From<WordError> for Refusal {
    ghost use Rattle.effsan_top.specs.Errors.{of_words};

    ghost from_gives = { λ e r. r ≡ of_words e };

    fn from(error: WordError) -> Refusal {
        match error {
            WordError::Memory(_) => Refusal::OutOfMemory,
            other => Refusal::Words(other),
        }
    }
}

impl Refusal {
    /// The exit status.
    pub fn status(&self) -> u8
        ensures { result ≡ status_of self.now }
    {
        match self {
            Refusal::Words(_) | Refusal::NotYet => WORDS_REFUSED,
            Refusal::Faulty(_) | Refusal::NotFound(_) => TEXT_REFUSED,
            Refusal::ReadFault => READ_FAULT,
            Refusal::WriteFault => WRITE_FAULT,
            Refusal::OutOfMemory => OUT_OF_MEMORY,
            Refusal::TooLarge => TOO_LARGE,
        }
    }

    /// Writes the line that says why, without taking memory.
    pub fn write<E: Sink>(&self, err: &mut E) -> Result<(), Failed>
        ensures ok { OnOk result (Appends (line_of self.now) (E.taken err.old) (E.taken err.new)) }
        ensures failed { OnErr result (AppendsSome (line_of self.now) (E.taken err.old) (E.taken err.new)) }
        ensures cause { OnErr result (Rose (E.faults err.old) (E.faults err.new)) }
    {
        match self {
            Refusal::Words(error) => write_words(err, error),
            Refusal::NotYet => write_all(err, b"effsan: words: NotYet\n"),
            Refusal::ReadFault => write_all(err, b"effsan: read fault\n"),
            Refusal::TooLarge => write_all(err, b"effsan: source too large\n"),
            Refusal::Faulty(fault) => write_faulty(err, *fault),
            Refusal::NotFound(name) => write_missing(err, name.bytes()),
            Refusal::OutOfMemory => write_all(err, b"effsan: out of memory\n"),
            Refusal::WriteFault => write_all(err, b"effsan: write fault\n"),
        }
    }
}

/// Writes one text and then another.
fn write_both<E: Sink>(err: &mut E, first: &[u8], second: &[u8]) -> Result<(), Failed>
    ensures ok { OnOk result (Appends (first.now ++ second.now) (E.taken err.old) (E.taken err.new)) }
    ensures failed { OnErr result (AppendsSome (first.now ++ second.now) (E.taken err.old) (E.taken err.new)) }
    ensures cause { OnErr result (Rose (E.faults err.old) (E.faults err.new)) }
    ensures never_falls { E.faults err.old ≤ E.faults err.new }
{
    write_all(err, first)?;
    write_all(err, second)?;
    Ok(())
}

fn write_line_number<E: Sink>(err: &mut E, line: usize) -> Result<(), Failed>
    ensures ok { OnOk result (Appends (codes "effsan: line " ++ decimal line) (E.taken err.old) (E.taken err.new)) }
    ensures failed { OnErr result (AppendsSome (codes "effsan: line " ++ decimal line) (E.taken err.old) (E.taken err.new)) }
    ensures cause { OnErr result (Rose (E.faults err.old) (E.faults err.new)) }
    ensures never_falls { E.faults err.old ≤ E.faults err.new }
{
    let mut digits = Buffer::new();
    write_both(err, b"effsan: line ", digits.format(line).as_bytes())
}

fn write_fault_name<E: Sink>(err: &mut E, kind: FaultKind) -> Result<(), Failed>
    ensures ok { OnOk result (Appends (codes ": " ++ fault_name kind) (E.taken err.old) (E.taken err.new)) }
    ensures failed { OnErr result (AppendsSome (codes ": " ++ fault_name kind) (E.taken err.old) (E.taken err.new)) }
    ensures cause { OnErr result (Rose (E.faults err.old) (E.faults err.new)) }
    ensures never_falls { E.faults err.old ≤ E.faults err.new }
{
    write_both(err, b": ", kind.name())
}

fn write_faulty<E: Sink>(err: &mut E, fault: Fault) -> Result<(), Failed>
    ensures ok { OnOk result (Appends (fault_line fault) (E.taken err.old) (E.taken err.new)) }
    ensures failed { OnErr result (AppendsSome (fault_line fault) (E.taken err.old) (E.taken err.new)) }
    ensures cause { OnErr result (Rose (E.faults err.old) (E.faults err.new)) }
{
    write_line_number(err, fault.line)?;
    write_fault_name(err, fault.kind)?;
    write_all(err, b"\n")?;
    Ok(())
}

fn write_error_name<E: Sink>(err: &mut E, error: &WordError) -> Result<(), Failed>
    ensures ok { OnOk result (Appends (codes "effsan: words: " ++ error_name error.now) (E.taken err.old) (E.taken err.new)) }
    ensures failed { OnErr result (AppendsSome (codes "effsan: words: " ++ error_name error.now) (E.taken err.old) (E.taken err.new)) }
    ensures cause { OnErr result (Rose (E.faults err.old) (E.faults err.new)) }
    ensures never_falls { E.faults err.old ≤ E.faults err.new }
{
    write_both(err, b"effsan: words: ", error.name())
}

/// Writes the place of a word after a space, where there is one.
fn write_error_place<E: Sink>(err: &mut E, error: &WordError) -> Result<(), Failed>
    ensures ok { OnOk result (Appends (place_text (error_place error.now)) (E.taken err.old) (E.taken err.new)) }
    ensures failed { OnErr result (AppendsSome (place_text (error_place error.now)) (E.taken err.old) (E.taken err.new)) }
    ensures cause { OnErr result (Rose (E.faults err.old) (E.faults err.new)) }
    ensures never_falls { E.faults err.old ≤ E.faults err.new }
{
    match error.place() {
        Some(place) => {
            let mut digits = Buffer::new();
            write_both(err, b" ", digits.format(place).as_bytes())
        }
        None => write_all(err, b""),
    }
}

fn write_words<E: Sink>(err: &mut E, error: &WordError) -> Result<(), Failed>
    ensures ok { OnOk result (Appends (words_line error.now) (E.taken err.old) (E.taken err.new)) }
    ensures failed { OnErr result (AppendsSome (words_line error.now) (E.taken err.old) (E.taken err.new)) }
    ensures cause { OnErr result (Rose (E.faults err.old) (E.faults err.new)) }
{
    write_error_name(err, error)?;
    write_error_place(err, error)?;
    write_all(err, b"\n")?;
    Ok(())
}

fn write_missing<E: Sink>(err: &mut E, name: &[u8]) -> Result<(), Failed>
    ensures ok { OnOk result (Appends (missing_line name.now) (E.taken err.old) (E.taken err.new)) }
    ensures failed { OnErr result (AppendsSome (missing_line name.now) (E.taken err.old) (E.taken err.new)) }
    ensures cause { OnErr result (Rose (E.faults err.old) (E.faults err.new)) }
{
    write_all(err, b"effsan: entry NotFound ")?;
    write_all(err, name)?;
    write_all(err, b"\n")?;
    Ok(())
}

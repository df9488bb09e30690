//! Why words are refused.

ghost use Rattle.effs_words.specs.declared.error.WordError.TheVariants.{Memory};
ghost use Rattle.std.specs.Prelude.{◌≡◌};

use std::alloc::AllocError;
use thiserror::Error;

/// Why words are refused. A place is that of a word, counted from 1.
#[derive(Debug, Drop, Error)]
pub enum WordError {
    #[error("out of memory")]
    Memory(AllocError),
    #[error("there is no word")]
    NoCommand,
    #[error("word {0} is no command, no option of the command, or a word too many")]
    UnknownWord(usize),
    #[error("a word is missing after word {0}")]
    MissingValue(usize),
    #[error("word {0} is no number or list of its range")]
    BadNumber(usize),
    #[error("word {0} says again what stands once")]
    Repeated(usize),
    #[error("no entry is named")]
    NoEntry,
    #[error("more than 8 entries are named")]
    TooManyEntries,
    /// Told by a call that has no threads.
    #[error("the command needs threads")]
    NeedsThreads,
    /// Told by a call that is given the watchers.
    #[error("no watcher has the name at word {0}")]
    UnknownWatch(usize),
    #[error("word {0} does not stand with an earlier one")]
    Excluded(usize),
}

impl WordError {
    ghost use Rattle.effs_words.specs.Names.{error_name, error_place};

    /// The name by which an error line tells it.
    pub fn name(&self) -> &'static [u8]
        ensures { result.now ≡ error_name self.now }
    {
        match self {
            WordError::Memory(_) => b"OutOfMemory",
            WordError::NoCommand => b"NoCommand",
            WordError::UnknownWord(_) => b"UnknownWord",
            WordError::MissingValue(_) => b"MissingValue",
            WordError::BadNumber(_) => b"BadNumber",
            WordError::Repeated(_) => b"Repeated",
            WordError::NoEntry => b"NoEntry",
            WordError::TooManyEntries => b"TooManyEntries",
            WordError::NeedsThreads => b"NeedsThreads",
            WordError::UnknownWatch(_) => b"UnknownWatch",
            WordError::Excluded(_) => b"Excluded",
        }
    }

    /// The place of the word that it is about, where it is about one.
    pub fn place(&self) -> Option<usize>
        ensures { result ≡ error_place self.now }
    {
        match self {
            WordError::UnknownWord(place)
            | WordError::MissingValue(place)
            | WordError::BadNumber(place)
            | WordError::Repeated(place)
            | WordError::UnknownWatch(place)
            | WordError::Excluded(place) => Some(*place),
            _ => None,
        }
    }
}

impl From<AllocError> for WordError {
    ghost from_gives = { λ e r. r ≡ Memory e };

    fn from(e: AllocError) -> WordError {
        WordError::Memory(e)
    }
}

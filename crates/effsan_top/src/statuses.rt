//! Exit statuses by name, and that of a run.

ghost use Rattle.std.specs.Prelude.{◌≡◌};
ghost use Rattle.std.specs.List.{list_any};
ghost use Rattle.effsan_top.specs.Statuses.{is_reported, is_spent, run_status};

use plain_meaning::{Ending, Record};

/// Every worker ended as `Finished`.
pub const FINISHED: u8 = 0;

/// Some worker ended with a report.
pub const REPORTED: u8 = 1;

/// The words are refused, and nothing was read.
pub const WORDS_REFUSED: u8 = 2;

/// The text was read whole and has no program, or no function of the name.
pub const TEXT_REFUSED: u8 = 3;

/// The source failed.
pub const READ_FAULT: u8 = 4;

/// The output failed, and took only a part of what the run prints.
pub const WRITE_FAULT: u8 = 5;

/// Memory ran out after the words were judged.
pub const OUT_OF_MEMORY: u8 = 6;

/// The source has more bytes than a text may have.
pub const TOO_LARGE: u8 = 7;

/// No worker ended with a report, and some used up its turns.
pub const STOPPED: u8 = 8;

fn some_reported(endings: &[Ending]) -> bool
    ensures { result ≡ list_any is_reported endings.now }
{
    for ending in endings {
        if let Ending::Reported(_) = ending {
            return true;
        }
    }
    false
}

fn some_spent(endings: &[Ending]) -> bool
    ensures { result ≡ list_any is_spent endings.now }
{
    for ending in endings {
        if let Ending::Spent(_) = ending {
            return true;
        }
    }
    false
}

/// The status of a run, by its endings.
pub fn status_of_run(run: &Record) -> u8
    ensures { result ≡ run_status run.now.endings }
{
    let endings = run.endings.as_slice();
    if some_reported(endings) {
        REPORTED
    } else if some_spent(endings) {
        STOPPED
    } else {
        FINISHED
    }
}

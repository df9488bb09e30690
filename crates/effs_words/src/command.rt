//! What the words ask for.

use byte_texts::Text;
use sqlite_items::Items;

/// What the words ask the program to do.
#[derive(Debug, Drop)]
pub enum Command {
    /// Runs the entries on threads.
    Run(RunWords),
    /// Runs the entries on one thread. The list says whose turn it is, by the entries' places from 1 on; it is empty where
    /// there is no `--schedule`.
    Play(RunWords, Items<u32>),
    /// Looks up the bounds that a pointer `k` bytes into an object of `size` bytes, made of `elem`, has for `want`.
    Layout {
        elem: Text,
        size: u64,
        k: u64,
        want: Text,
    },
    /// Reads and judges the source alone.
    Check,
    /// Runs a generated source of this size.
    Big(u32),
    /// Judges the record file that is read.
    Verify,
}

/// What the options of `run` and `play` say. Lists have the order of the words.
#[derive(Debug, Drop)]
pub struct RunWords {
    pub entries: Items<Text>,
    pub setup: Option<Text>,
    pub finish: Option<Text>,
    /// How many turns a worker may take, 1,000,000 where the words do not say.
    pub turns: u32,
    /// Whether the history is printed.
    pub show: bool,
    pub watch: Items<Text>,
    /// Whether the record file is written in place of all text.
    pub bytes: bool,
    /// Whether checks that need not be asked again are left out.
    pub trim: bool,
}

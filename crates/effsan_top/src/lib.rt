//! The top call: from words and a source to what is printed, a status and a record.
#![tactic(auto)]

mod answer;
mod faults;
mod lines;
mod program;
mod refusal;
mod running;
mod served;
mod statuses;
mod still;

pub use effs_io::{
    CalmSink, CalmSource, Failed, InSource, MemSink, MemSource, OutSink, ReadError, Sink, Source,
    read_all, write_all,
};
pub use plain_meaning::{Ending, Record, Report, Text};
pub use program::law_program;
pub use statuses::{
    FINISHED, OUT_OF_MEMORY, READ_FAULT, REPORTED, STOPPED, TEXT_REFUSED, TOO_LARGE, WORDS_REFUSED,
    WRITE_FAULT,
};
pub use still::{Finished, effsan_still};

//! Streams of bytes: where they come from, where they go, and whole texts from one or to the other.
#![tactic(auto)]

mod calm;
mod memory;
mod outside;
mod sink;
mod source;
mod transfer;

pub use calm::{CalmSink, CalmSource};
pub use memory::{MemSink, MemSource};
pub use outside::{InSource, OutSink};
pub use sink::Sink;
pub use source::{Failed, Source};
pub use transfer::{MAX_SOURCE_BYTES, ReadError, read_all, read_up_to, write_all};

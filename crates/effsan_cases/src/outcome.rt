//! A call of the program, and what it left.

use crate::history::append_record;
use crate::script::Script;
use case_list::{append_ends, append_lines};
use effsan_top::{Finished, MemSink, MemSource, effsan_still};
use std::alloc::{AllocError, Global};

/// Serves the words of a script on its text and its streams, and answers in lines the status, what the streams took, and the record
/// where the script asks for it.
pub fn outcome(alloc: Global, script: &Script, text: &[u8]) -> Result<String, AllocError> {
    if let Some(key) = &script.unknown {
        return format!(in alloc; "{}: no field {key}\n", script.name);
    }
    let source = &script.source;
    let mut src = MemSource::new(text, source.piece.max(1), source.fail.as_slice());
    let sink = &script.out;
    let fail = sink.fail.as_slice();
    let empty = sink.empty.as_slice();
    let mut out = MemSink::new(alloc, sink.size, sink.piece.max(1), fail, empty)?;
    let sink = &script.err;
    let fail = sink.fail.as_slice();
    let empty = sink.empty.as_slice();
    let mut err = MemSink::new(alloc, sink.size, sink.piece.max(1), fail, empty)?;
    let words = script.words.as_slice();
    let Finished { status, run } = effsan_still(alloc, words, &mut src, &mut out, &mut err);
    let mut lines = format!(in alloc; "{}: {status}\n", script.name)?;
    match script.ends {
        Some(ends) => append_ends(alloc, &mut lines, "out", out.taken(), ends)?,
        None => append_lines(alloc, &mut lines, "out", out.taken())?,
    }
    append_lines(alloc, &mut lines, "err", err.taken())?;
    if script.record {
        append_record(alloc, &mut lines, &run)?;
    }
    Ok(lines)
}

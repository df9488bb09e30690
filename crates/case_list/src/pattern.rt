//! Texts that are made from pieces: `'PIECE' 'PIECE' times COUNT ..`.

use crate::line::number;
use std::alloc::{AllocError, AllocGlobal, Global};
use std::rt::Files;
use std::{fs, io};

/// Adds a piece with the number of its repetition for each `$`, and the number below that for each `@`.
fn append_numbered(
    alloc: Global,
    to: &mut String,
    piece: &str,
    turn: u32,
) -> Result<(), AllocError> {
    let here = turn.to_string(alloc)?;
    let below = turn.saturating_sub(1).to_string(alloc)?;
    let piece = piece.replace(alloc, "$", here.as_str())?;
    let piece = piece.replace(alloc, "@", below.as_str())?;
    to.push_str(piece.as_str())
}

/// Adds a piece so many times, numbered from 1. A backquote in it is the end of a line.
fn append_piece(alloc: Global, to: &mut String, piece: &str, times: u32) -> Result<(), AllocError> {
    let piece = piece.replace(alloc, "`", "\n")?;
    let is_numbered = piece.contains('$') || piece.contains('@');
    for turn in 0..times {
        if is_numbered {
            append_numbered(alloc, to, piece.as_str(), turn.saturating_add(1))?;
        } else {
            to.push_str(piece.as_str())?;
        }
    }
    Ok(())
}

/// How often a piece stands, from what is written after it.
fn times_of(after: &str) -> u32 {
    match after.trim().strip_prefix("times ") {
        Some(count) => number(count),
        None => 1,
    }
}

/// The text of a pattern: its pieces one after another, each once, or as often as is written after it.
pub fn made_text(alloc: Global, pattern: &str) -> Result<String, AllocError> {
    let mut text = String::new(alloc);
    let mut parts = pattern.split('\'').skip(1);
    while let Some(piece) = parts.next() {
        let after = parts.next().unwrap_or("");
        append_piece(alloc, &mut text, piece, times_of(after))?;
    }
    Ok(text)
}

/// The text in the file `NAME.c` where the program runs.
pub fn text_of<R: Files + AllocGlobal>(rt: &R, name: &str) -> io::Result<Vec<u8>> {
    let path = format!(in rt.alloc(); "{name}.c")?;
    fs::read(rt, path)
}

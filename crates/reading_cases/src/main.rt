// Reads the texts of the cases that stdin lists, and prints the tokens of each, or why it is refused.
#![tactic(auto)]

mod bytes;
mod shown;

use bytes::bytes_of;
use c_lexer::MAX_SOURCE_BYTES;
use case_list::{Case, case_of};
use shown::{number_left, shown_kinds, shown_left, shown_strings, shown_tokens};
use std::alloc::{AllocError, Global};
use std::io::{self, BufRead, BufReader};

/// What one way of reading shows of a text of at most a mebibyte.
fn answer_of(alloc: Global, way: &str, text: &[u8]) -> Result<String, AllocError> {
    if text.len() > MAX_SOURCE_BYTES {
        return format!(in alloc; "too long");
    }
    match way {
        "tokens" => shown_tokens(alloc, text),
        "kinds" => shown_kinds(alloc, text),
        "strings" => shown_strings(alloc, text),
        "left" => shown_left(alloc, text),
        "how many are left" => number_left(alloc, text),
        _ => format!(in alloc; "no such way"),
    }
}

/// The line of a case: its name, and what the text shows when it is read in the case's way.
fn line(alloc: Global, case: &Case) -> Result<String, AllocError> {
    let way = case.fields.first().map_or("", |field| field.as_str());
    let pattern = case.fields.get(1).map_or("", |field| field.as_str());
    let text = bytes_of(alloc, pattern)?;
    let answer = answer_of(alloc, way, text.as_slice())?;
    format!(in alloc; "{}: {answer}\n", case.name)
}

fn main(rt: HostRuntime) -> io::Result<()> {
    let alloc = rt.alloc();
    for listed in BufReader::new(alloc, rt.stdin())?.lines(alloc) {
        if let Some(case) = case_of(alloc, listed?.as_str())? {
            rt.print(line(alloc, &case)?)?;
        }
    }
    Ok(())
}

//! What a case says: the words, the text, and how its streams behave.

use case_list::{Case, number, numbers};
use std::alloc::{AllocError, Global};

/// A stream in memory.
#[derive(Debug, Drop)]
pub struct Stream {
    /// The most bytes of one call.
    pub piece: u32,
    /// The calls that fail, counted from 1.
    pub fail: Vec<u32>,
    /// The calls that take nothing, counted from 1.
    pub empty: Vec<u32>,
    /// The most bytes in all.
    pub size: u32,
}

/// A case with its fields read.
#[derive(Debug, Drop)]
pub struct Script {
    pub name: String,
    pub words: Vec<String>,
    /// The name of the file with the text.
    pub text: String,
    /// What the text is made from, if it is in no file.
    pub pattern: Option<String>,
    pub source: Stream,
    pub out: Stream,
    pub err: Stream,
    /// How many of the first and the last bytes of the output are printed, if not all.
    pub ends: Option<u32>,
    /// Whether the record is printed.
    pub record: bool,
    /// A field that says nothing known.
    pub unknown: Option<String>,
}

fn calm_stream(alloc: Global, piece: u32, size: u32) -> Stream {
    Stream {
        piece,
        fail: Vec::new(alloc),
        empty: Vec::new(alloc),
        size,
    }
}

fn words_of(alloc: Global, text: &str) -> Result<Vec<String>, AllocError> {
    let mut words = Vec::new(alloc);
    for word in text.split_whitespace() {
        words.push(String::from_str(alloc, word)?)?;
    }
    Ok(words)
}

/// Reads one field that follows the words: a key, and after a space its value.
fn read_field(alloc: Global, script: &mut Script, field: &str) -> Result<(), AllocError> {
    let (key, value) = field.split_once(' ').unwrap_or((field, ""));
    match key {
        "text" => script.text = String::from_str(alloc, value.trim())?,
        "pattern" => script.pattern = Some(String::from_str(alloc, value)?),
        "reads" => script.source.piece = number(value),
        "failing-reads" => script.source.fail = numbers(alloc, value)?,
        "writes" => script.out.piece = number(value),
        "failing-writes" => script.out.fail = numbers(alloc, value)?,
        "empty-writes" => script.out.empty = numbers(alloc, value)?,
        "takes" => script.out.size = number(value),
        "err-writes" => script.err.piece = number(value),
        "err-failing-writes" => script.err.fail = numbers(alloc, value)?,
        "err-empty-writes" => script.err.empty = numbers(alloc, value)?,
        "err-takes" => script.err.size = number(value),
        "ends" => script.ends = Some(number(value)),
        "record" => script.record = true,
        _ => script.unknown = Some(String::from_str(alloc, key)?),
    }
    Ok(())
}

/// The script of a case: its first field has the words.
pub fn script_of(alloc: Global, case: &Case) -> Result<Script, AllocError> {
    let words = case.fields.first().map_or("", |field| field.as_str());
    let mut script = Script {
        name: case.name.clone()?,
        words: words_of(alloc, words)?,
        text: case.name.clone()?,
        pattern: None,
        source: calm_stream(alloc, 4096, 0),
        out: calm_stream(alloc, 1 << 16, 1 << 22),
        err: calm_stream(alloc, 4096, 4096),
        ends: None,
        record: false,
        unknown: None,
    };
    for field in case.fields.iter().skip(1) {
        read_field(alloc, &mut script, field.as_str())?;
    }
    Ok(script)
}

// Reads the texts of the cases that stdin lists, and prints the tree of each, or the token that is refused.
#![tactic(auto)]

mod marks;
mod phrases;
mod reading;
mod script;
mod sketch;
mod statements;

use case_list::{append_ends, append_lines, case_of, made_text, text_of};
use reading::view_text;
use script::{Script, script_of};
use std::alloc::{AllocError, Global};
use std::io::{self, BufRead, BufReader};

/// The line that is printed of one text, or its size and its ends.
fn line(alloc: Global, script: &Script, name: &str, text: &[u8]) -> Result<String, AllocError> {
    let shown = view_text(alloc, script, text)?;
    let mut line = String::new(alloc);
    match script.ends {
        Some(ends) => append_ends(alloc, &mut line, name, shown.as_bytes(), ends)?,
        None if shown.is_empty() => append_lines(alloc, &mut line, name, b"nothing\n")?,
        None => append_lines(
            alloc,
            &mut line,
            name,
            format!(in alloc; "{shown}\n")?.as_bytes(),
        )?,
    }
    Ok(line)
}

/// The lines of a case whose pattern is made once with each of its words in the place of `$`.
fn lines_of_each(alloc: Global, script: &Script) -> Result<String, AllocError> {
    let pattern = script
        .pattern
        .as_ref()
        .map_or("", |pattern| pattern.as_str());
    let mut lines = String::new(alloc);
    for word in script.each.iter() {
        let pattern = pattern.replace(alloc, "$", word.as_str())?;
        let text = made_text(alloc, pattern.as_str())?;
        let name = format!(in alloc; "{} {word}", script.name)?;
        lines.push_str(line(alloc, script, name.as_str(), text.as_bytes())?.as_str())?;
    }
    Ok(lines)
}

/// The text of a case: made from its pattern, or read from its file.
fn text(rt: &HostRuntime, script: &Script) -> io::Result<Vec<u8>> {
    match &script.pattern {
        Some(pattern) => Ok(made_text(rt.alloc(), pattern.as_str())?.into_bytes()),
        None => text_of(rt, script.text.as_str()),
    }
}

fn main(rt: HostRuntime) -> io::Result<()> {
    let alloc = rt.alloc();
    for listed in BufReader::new(alloc, rt.stdin())?.lines(alloc) {
        let Some(case) = case_of(alloc, listed?.as_str())? else {
            continue;
        };
        let script = script_of(alloc, &case)?;
        if script.each.is_empty() {
            let text = text(&rt, &script)?;
            rt.print(line(alloc, &script, script.name.as_str(), text.as_slice())?)?;
        } else {
            rt.print(lines_of_each(alloc, &script)?)?;
        }
    }
    Ok(())
}

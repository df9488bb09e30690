//! The steps of a case: a word that says what is done, and what it is done to.

use crate::adding::{add_array, add_flexible, add_pointer, add_tag, complete};
use crate::asking::{kind, known_types, layout, member, tag_name};
use crate::words::{fields_of, split, type_no};
use c_types::TypeTable;
use case_list::{made_text, number};
use std::alloc::{AllocError, Global};

/// Completes a struct or a union with members that are written `NAME:TYPE`.
fn completed(alloc: Global, types: &mut TypeTable, rest: &str) -> Result<String, AllocError> {
    let (tag, members) = split(rest);
    let tag = type_no(types, tag);
    let fields = fields_of(alloc, types, members)?;
    complete(alloc, types, tag, fields.as_slice())
}

/// What a table answers where it is asked.
fn asked(alloc: Global, types: &TypeTable, verb: &str, rest: &str) -> Result<String, AllocError> {
    let (word, place) = split(rest);
    let t = type_no(types, word);
    match verb {
        "layout" => layout(alloc, types, t),
        "member" => member(alloc, types, t, number(place)),
        "kind" => kind(alloc, types, t),
        "name" => tag_name(alloc, types, t),
        "known" => known_types(alloc, types),
        "count" => types.len().to_string(alloc),
        _ => String::from_str(alloc, "no step"),
    }
}

/// What a table answers to one step.
fn answer(alloc: Global, types: &mut TypeTable, step: &str) -> Result<String, AllocError> {
    let (verb, rest) = split(step.trim());
    let (word, after) = split(rest);
    match verb {
        "pointer" => add_pointer(alloc, types, type_no(types, word)),
        "array" => add_array(alloc, types, type_no(types, word), number(after)),
        "flexible" => add_flexible(alloc, types, type_no(types, word)),
        "struct" => add_tag(alloc, types, false, rest),
        "union" => add_tag(alloc, types, true, rest),
        "members" => completed(alloc, types, rest),
        _ => asked(alloc, types, verb, rest),
    }
}

/// What a table answers to a step; of steps that are made from a pattern, one a line, what it answers to the last.
pub fn answer_of(alloc: Global, types: &mut TypeTable, step: &str) -> Result<String, AllocError> {
    if !step.starts_with('\'') {
        return answer(alloc, types, step);
    }
    let mut last = String::new(alloc);
    for line in made_text(alloc, step)?.as_str().lines() {
        last = answer(alloc, types, line)?;
    }
    Ok(last)
}

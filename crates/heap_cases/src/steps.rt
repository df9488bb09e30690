//! The steps of a case.

use crate::answers::{answer_text, pointer_text};
use crate::calls::call_of;
use crate::region::Region;
use crate::words::{pointer, split};
use case_list::{made_text, number};
use std::alloc::{AllocError, Global};

/// Begins with the empty heap of a region.
fn renew(alloc: Global, region: &mut Region, rest: &str) -> Result<String, AllocError> {
    region.renew(alloc, number(rest))?;
    format!(in alloc; "region {}", region.number())
}

/// How many objects live, and how many were made.
fn counts(alloc: Global, region: &Region) -> Result<String, AllocError> {
    let (live, made) = region.counts();
    format!(in alloc; "{live} live of {made}")
}

/// The number of a pointer's word, and the pointer again.
fn word(alloc: Global, region: &Region, rest: &str) -> Result<String, AllocError> {
    match pointer(region.number(), rest) {
        Some(word) => {
            let again = pointer_text(alloc, region.number(), word)?;
            format!(in alloc; "{word} {again}")
        }
        None => String::from_str(alloc, "no pointer"),
    }
}

/// What comes of a call.
fn called(
    alloc: Global,
    region: &mut Region,
    verb: &str,
    rest: &str,
) -> Result<String, AllocError> {
    match call_of(region.number(), verb, rest) {
        Some(call) => {
            let answer = region.ask(&call)?;
            answer_text(alloc, region.number(), answer)
        }
        None => String::from_str(alloc, "no step"),
    }
}

/// What one step answers.
fn answer(alloc: Global, region: &mut Region, step: &str) -> Result<String, AllocError> {
    let (verb, rest) = split(step.trim());
    match verb {
        "region" => renew(alloc, region, rest),
        "counts" => counts(alloc, region),
        "word" => word(alloc, region, rest),
        _ => called(alloc, region, verb, rest),
    }
}

/// What a step answers. Of steps that are made from a pattern, one a line as `STEP = ANSWER`, it is told how many answer so,
/// up to the first that does not.
pub fn answer_of(alloc: Global, region: &mut Region, step: &str) -> Result<String, AllocError> {
    if !step.starts_with('\'') {
        return answer(alloc, region, step);
    }
    let mut count: u64 = 0;
    for line in made_text(alloc, step)?.as_str().lines() {
        let (step, wanted) = line.split_once(" = ").unwrap_or((line, ""));
        let answered = answer(alloc, region, step)?;
        if answered.as_str() != wanted {
            return format!(in alloc; "{count} so, then {step}: {answered}");
        }
        count = count.saturating_add(1);
    }
    format!(in alloc; "{count} so")
}

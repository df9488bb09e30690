//! The answer to words and a source, before anything is written.

ghost use Rattle.std.specs.Prelude.{◌≡◌, ◌≤◌, length, map, IfOk, IfErr, string_bytes};
ghost use Rattle.c_tokens.specs.Limits.{max_source_bytes};
ghost use Rattle.effs_io.specs.Streams.{Rose};
ghost use Rattle.effsan_top.specs.Calls.{ReadsSource};
ghost use Rattle.effsan_top.specs.Causes.{HasCause};
ghost use Rattle.effsan_top.specs.Histories.{IsHistory, ReportsAreShown};
ghost use Rattle.effsan_top.specs.Lines as spec;
ghost use Rattle.effsan_top.specs.Statuses.{words_refused};
ghost use Rattle.effsan_top.specs.Steps.{RunsText, RunsWords, HasTextCause, status_in};

use crate::program::text_program;
use crate::refusal::Refusal;
use crate::running::run_program;
use crate::served::{SoloPlay, served};
use effs_io::{Source, read_all};
use heap_model::{law_accesses_inside, law_checks};
use plain_meaning::{Record, Setting, Text, find_entry, law_reported};
use std::alloc::Global;

/// A run, and what is to be printed of it.
#[derive(Debug, Drop)]
pub struct Answer {
    pub run: Record,
    pub text: Text,
}

/// Runs the function that is asked for.
fn answer_text(alloc: Global, play: SoloPlay, text: &[u8]) -> Result<Answer, Refusal>
    requires { length text.now ≤ max_source_bytes }
    ensures run { IfOk result (λ answer. RunsText play text.now answer.run) }
    ensures history { IfOk result (λ answer. IsHistory answer.run.history.entries) }
    ensures reports { IfOk result (λ answer. ReportsAreShown answer.run) }
    ensures text { IfOk result (λ answer. answer.text ≡ spec.printed answer.run) }
    ensures refused { IfErr result (λ refusal. HasTextCause play.entry text.now refusal) }
{
    let program = text_program(alloc, text)?;
    let SoloPlay { entry: name, turns } = play;
    let Ok(entry) = find_entry(&program, name.bytes()) else {
        return Err(Refusal::NotFound(name));
    };
    let setting = Setting { entry, turns };
    let answer = run_program(alloc, &program, &setting)?;
    law_reported();
    law_checks();
    law_accesses_inside();
    Ok(answer)
}

/// Reads the source and runs what the words ask for. The source is left alone until the words are judged.
pub fn answer_words<S: Source>(
    alloc: Global,
    words: &[String],
    src: &mut S,
) -> Result<Answer, Refusal>
    ensures run { IfOk result (λ answer. RunsWords (map string_bytes words.now) (S.left src.old) answer.run) }
    ensures history { IfOk result (λ answer. IsHistory answer.run.history.entries) }
    ensures reports { IfOk result (λ answer. ReportsAreShown answer.run) }
    ensures text { IfOk result (λ answer. answer.text ≡ spec.printed answer.run) }
    ensures refused { IfErr result (λ refusal. HasCause (map string_bytes words.now) (S.left src.old) (Rose (S.faults src.old) (S.faults src.new)) ⊥ refusal) }
    ensures source { ReadsSource (status_in result) (S.left src.old) (S.left src.new) }
    ensures untouched { IfErr result (λ refusal. spec.status_of refusal ≡ words_refused → src.new ≡ src.old) }
{
    let play = served(alloc, words)?;
    let text = read_all(alloc, src)?;
    answer_text(alloc, play, text.as_slice())
}

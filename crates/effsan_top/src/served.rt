//! What is served of what words ask for. What is well formed and not built yet is refused here alone.

ghost use Rattle.std.specs.Prelude.{◌≡◌, [], map, IfOk, IfErr, IfSome, IsSome, string_bytes};
ghost use Rattle.effsan_top.specs.Served as spec;
ghost use Rattle.effsan_top.specs.Served.{AskSolo};
ghost use Rattle.effsan_top.specs.Steps.{HasWordsCause};
ghost use Rattle.effsan_top.specs.declared.served.SoloPlay.{SoloPlay as Play};

use crate::refusal::Refusal;
use byte_texts::Text;
use effs_words::{Command, RunWords, WordError, law_watches, law_words, read_words, watch_place};
use sqlite_items::Items;
use std::alloc::Global;

/// `play` of one function: its name, and how many turns its worker may take.
#[derive(Debug, Drop)]
pub struct SoloPlay {
    pub entry: Text,
    pub turns: u32,
}

/// What a line of `play` asks for, if it is one function and nothing besides.
fn solo_play(run: RunWords, schedule: Items<u32>) -> Option<SoloPlay>
    ensures found { IfSome result (λ play. (run ≡ spec.solo_words play) × (schedule ≡ [])) }
    ensures only { (play : Play) → run ≡ spec.solo_words play → schedule ≡ [] → IsSome result }
{
    let RunWords {
        mut entries,
        setup,
        finish,
        turns,
        show,
        watch,
        bytes,
        trim,
    } = run;
    let is_plain = setup.is_none() && finish.is_none() && !show && !bytes && !trim;
    if !is_plain || !watch.is_empty() || !schedule.is_empty() {
        return None;
    }
    let entry = entries.pop()?;
    if entries.is_empty() {
        Some(SoloPlay { entry, turns })
    } else {
        None
    }
}

/// The place of the first name that `--watch` gives, in words of `play`.
#[tactic(auto, unfolding(effs_words::specs::Options::watch_places))]
fn first_watch(words: &[String]) -> Option<usize>
    ensures { result ≡ spec.first_watch (map string_bytes words.now) }
{
    let (_, options) = words.split_first()?;
    watch_place(options, true, 0)
}

/// The one command that is served so far. There are no watchers yet, so no name of one is known.
pub fn served(alloc: Global, words: &[String]) -> Result<SoloPlay, Refusal>
    ensures found { IfOk result (λ play. AskSolo (map string_bytes words.now) play) }
    ensures refused { IfErr result (λ refusal. HasWordsCause (map string_bytes words.now) refusal) }
{
    law_words();
    law_watches();
    match read_words(alloc, words)? {
        Command::Run(_) => Err(Refusal::Words(WordError::NeedsThreads)),
        Command::Big(_) => Err(Refusal::Words(WordError::NeedsThreads)),
        Command::Play(run, schedule) => match first_watch(words) {
            Some(place) => Err(Refusal::Words(WordError::UnknownWatch(place))),
            None => match solo_play(run, schedule) {
                Some(play) => Ok(play),
                None => Err(Refusal::NotYet),
            },
        },
        Command::Layout { .. } => Err(Refusal::NotYet),
        Command::Check => Err(Refusal::NotYet),
        Command::Verify => Err(Refusal::NotYet),
    }
}

//! What words ask for, once they are judged.

ghost use Rattle.std.specs.Prelude.{◌≡◌, ℕ, Err, MatchResult, unwrap_or, ◌+◌, ◌<◌, ◌≤◌, ◌^◌, Some, List, ◌∷◌, IfOk, IfErr, length, map, string_bytes};
ghost use Rattle.std.specs.Option.{option_map, ForSome};
ghost use Rattle.effs_words.specs.Numbers.{Word};
ghost use Rattle.effs_words.specs.Options as spec;
ghost use Rattle.effs_words.specs.Words.{Words, BadWord, HasCause, IsMemory, command_of, schedule_in};
ghost use Rattle.effs_words.specs.Judged.{Says, Asks, AsksIn, HasLineCause, IsAnswer};
ghost use Rattle.effs_words.specs.declared.command.Command.{Command as Asked};
ghost use Rattle.effs_words.specs.declared.error.WordError.{WordError as Refused};
ghost use Rattle.effs_words.specs.declared.options.CommandName.TheVariants as name;

use crate::command::{Command, RunWords};
use crate::error::WordError;
use crate::judge::{Line, Options};
use crate::numbers::number_in;
use crate::options::{CommandName, command_named};
use crate::schedule::{is_schedule, read_schedule};
use crate::values::{Listed, entry_count, text_of, values_of};
use byte_texts::Text;
use sqlite_items::Items;
use std::alloc::{AllocError, Global};

/// How many turns a worker may take where the words do not say.
const DEFAULT_TURNS: u32 = 1_000_000;

/// The most bytes of an object that `layout` is asked about.
const MAX_OBJECT: u64 = 1_048_559;

/// The farthest place that `layout` is asked about.
const MAX_OFFSET: u64 = 1_048_576;

/// The largest generated source.
const MAX_SCALE: u64 = 2000;

/// What the options of a line ask for.
#[derive(Drop)]
struct Ask {
    run: RunWords,
    schedule: Items<u32>,
}

fn text_option(alloc: Global, bytes: Option<&[u8]>) -> Result<Option<Text>, AllocError>
    ensures { IfOk result (λ text. text ≡ option_map (λ b. b.now) bytes.entry) }
{
    match bytes {
        Some(bytes) => {
            let text = text_of(alloc, bytes)?;
            Ok(Some(text))
        }
        None => Ok(None),
    }
}

fn turns_or_default(turns: Option<u64>) -> u32
    requires { ForSome turns (λ n. n ≤ 5000000) }
    ensures { result ≡ unwrap_or turns 1000000 }
{
    match turns {
        Some(turns) => turns as u32,
        None => DEFAULT_TURNS,
    }
}

fn schedule_or_none(
    alloc: Global,
    list: Option<&[u8]>,
    workers: u64,
) -> Result<Items<u32>, AllocError>
    requires { workers ≤ 8 }
    ensures { IfOk result (λ schedule. schedule ≡ schedule_in workers (option_map (λ l. l.now) list.entry)) }
{
    match list {
        Some(list) if is_schedule(list, workers) => read_schedule(alloc, list, workers),
        _ => Ok(Items::new(alloc)),
    }
}

/// Takes the memory for what a judged line asks for.
fn ask_for(alloc: Global, line: Line<'_>, options: Options<'_>) -> Result<Ask, AllocError>
    requires said { Says line.play line.workers (map string_bytes line.words.now) options }
    requires some { 0 < options.entries }
    requires counted { line.workers ≡ spec.entry_count line.play (map string_bytes line.words.now) }
    ensures { IfOk result (λ ask. Asks line.entry.play line.entry.workers (map string_bytes line.entry.words.now) ask.run ask.schedule) }
{
    let schedule = schedule_or_none(alloc, options.schedule, options.entries as u64)?;
    let entries = values_of(alloc, line.words, line.play, Listed::Entries)?;
    let watch = values_of(alloc, line.words, line.play, Listed::Watches)?;
    let setup = text_option(alloc, options.setup)?;
    let finish = text_option(alloc, options.finish)?;
    let run = RunWords {
        entries,
        setup,
        finish,
        turns: turns_or_default(options.turns),
        show: options.show,
        watch,
        bytes: options.bytes,
        trim: options.trim,
    };
    Ok(Ask { run, schedule })
}

/// Reads the options of `run` or `play`.
fn read_line(alloc: Global, words: &[String], play: bool) -> Result<Ask, WordError>
    requires { length words.now + 1 < 2 ^ 64 }
    ensures asks { IfOk result (λ ask. AsksIn play (map string_bytes words.now) ask.run ask.schedule) }
    ensures refused { IfErr result (λ e. HasLineCause play (map string_bytes words.now) e) }
{
    let line = Line {
        words,
        play,
        workers: entry_count(words, play),
    };
    let options = line.read()?;
    Ok(ask_for(alloc, line, options)?)
}

fn read_run(alloc: Global, words: &[String]) -> Result<Command, WordError>
    requires { length words.now + 1 < 2 ^ 64 }
    ensures { (word : Word) → command_of word ≡ Some name.Run → IsAnswer (word ∷ map string_bytes words.now) result }
{
    let Ask { run, schedule: _ } = read_line(alloc, words, false)?;
    Ok(Command::Run(run))
}

fn read_play(alloc: Global, words: &[String]) -> Result<Command, WordError>
    requires { length words.now + 1 < 2 ^ 64 }
    ensures { (word : Word) → command_of word ≡ Some name.Play → IsAnswer (word ∷ map string_bytes words.now) result }
{
    let Ask { run, schedule } = read_line(alloc, words, true)?;
    Ok(Command::Play(run, schedule))
}

/// Reads the four words after `layout`.
fn read_layout(alloc: Global, words: &[String]) -> Result<Command, WordError>
    ensures { (word : Word) → command_of word ≡ Some name.Layout → IsAnswer (word ∷ map string_bytes words.now) result }
{
    if words.is_empty() {
        return Err(WordError::MissingValue(1));
    }
    if words.len() == 1 {
        return Err(WordError::MissingValue(2));
    }
    let Some(size) = number_in(words[1].as_bytes(), 0, MAX_OBJECT) else {
        return Err(WordError::BadNumber(3));
    };
    if words.len() == 2 {
        return Err(WordError::MissingValue(3));
    }
    let Some(k) = number_in(words[2].as_bytes(), 0, MAX_OFFSET) else {
        return Err(WordError::BadNumber(4));
    };
    if words.len() == 3 {
        return Err(WordError::MissingValue(4));
    }
    if words.len() > 4 {
        return Err(WordError::UnknownWord(6));
    }
    let elem = text_of(alloc, words[0].as_bytes())?;
    let want = text_of(alloc, words[3].as_bytes())?;
    Ok(Command::Layout {
        elem,
        size,
        k,
        want,
    })
}

/// Reads the word after `big`.
fn read_big(words: &[String]) -> Result<Command, WordError>
    ensures { (word : Word) → command_of word ≡ Some name.Big → IsAnswer (word ∷ map string_bytes words.now) result }
{
    if words.is_empty() {
        return Err(WordError::MissingValue(1));
    }
    let Some(scale) = number_in(words[0].as_bytes(), 1, MAX_SCALE) else {
        return Err(WordError::BadNumber(2));
    };
    if words.len() > 1 {
        return Err(WordError::UnknownWord(3));
    }
    Ok(Command::Big(scale as u32))
}

/// Sees that no word stands after `check`.
fn read_check(words: &[String]) -> Result<Command, WordError>
    ensures { (word : Word) → command_of word ≡ Some name.Check → IsAnswer (word ∷ map string_bytes words.now) result }
{
    if words.is_empty() {
        Ok(Command::Check)
    } else {
        Err(WordError::UnknownWord(2))
    }
}

/// Sees that no word stands after `verify`.
fn read_verify(words: &[String]) -> Result<Command, WordError>
    ensures { (word : Word) → command_of word ≡ Some name.Verify → IsAnswer (word ∷ map string_bytes words.now) result }
{
    if words.is_empty() {
        Ok(Command::Verify)
    } else {
        Err(WordError::UnknownWord(2))
    }
}

/// Judges the words, and then takes the memory for what they ask.
fn answer_words(alloc: Global, words: &[String]) -> Result<Command, WordError>
    ensures { IsAnswer (map string_bytes words.now) result }
{
    if words.is_empty() {
        return Err(WordError::NoCommand);
    }
    let rest = &words[1..];
    match command_named(&words[0]) {
        None => Err(WordError::UnknownWord(1)),
        Some(CommandName::Run) => read_run(alloc, rest),
        Some(CommandName::Play) => read_play(alloc, rest),
        Some(CommandName::Layout) => read_layout(alloc, rest),
        Some(CommandName::Big) => read_big(rest),
        Some(CommandName::Check) => read_check(rest),
        Some(CommandName::Verify) => read_verify(rest),
    }
}

/// Reads the words of the command line, those after the program's name. No memory is taken before all of them are judged.
pub fn read_words(alloc: Global, words: &[String]) -> Result<Command, WordError>
    ensures found { IfOk result (λ command. Words (map string_bytes words.now) command) }
    ensures refused { IfErr result (λ e. HasCause (map string_bytes words.now) e) }
    // Nothing else is answered.
    ensures only { (command : Asked) → Words (map string_bytes words.now) command → MatchResult result (λ other. other ≡ command) IsMemory }
    ensures only_refused { (e : Refused) → BadWord (map string_bytes words.now) e → result ≡ Err e }
{
    answer_words(alloc, words)
}

//! Lines of options, judged option by option without taking memory.

ghost use Rattle.std.specs.Prelude.{◌≡◌, ℕ, Bool, Some, None, ◌+◌, ◌≤◌, ◌<◌, ◌^◌, IfOk, IfErr, List, [], length, map, string_bytes, take, drop};
ghost use Rattle.effs_words.specs.Numbers.{Word};
ghost use Rattle.effs_words.specs.Options as spec;
ghost use Rattle.effs_words.specs.Options.{has_some, values_of};
ghost use Rattle.effs_words.specs.Judged.{Says, IsBadLine, IsBadSomewhere, Takes, asked_of};
ghost use Rattle.effs_words.specs.declared.values.Listed.TheVariants as listed;

use crate::error::WordError;
use crate::numbers::number_in;
use crate::options::{OptionName, option_named, takes_value};
use crate::schedule::is_schedule;
use crate::values::is_watched;

/// The most entries that a line names.
const MAX_ENTRIES: usize = 8;

/// The most turns that a worker may be given.
const MAX_TURNS: u64 = 5_000_000;

/// What options say that were read one after another. Of the entries it has their number, and of the watchers whether there
/// are any.
#[derive(Clone, Copy)]
pub struct Options<'a> {
    pub entries: usize,
    pub setup: Option<&'a [u8]>,
    pub finish: Option<&'a [u8]>,
    pub turns: Option<u64>,
    pub show: bool,
    pub bytes: bool,
    pub trim: bool,
    pub watched: bool,
    pub schedule: Option<&'a [u8]>,
}

/// A line of options: its words, whether `play` has them, and how many entries it names.
#[derive(Clone, Copy)]
pub struct Line<'a> {
    pub words: &'a [String],
    pub play: bool,
    pub workers: usize,
}

/// A refusal if this is so.
fn told_if(is_so: bool, error: WordError) -> Option<WordError>
    ensures { result ≡ spec.told_if is_so error }
{
    if is_so { Some(error) } else { None }
}

/// The refusal of what stands again, or of what does not stand with another option.
fn again_or_excluded(again: bool, excluded: bool, place: usize) -> Option<WordError>
    ensures { result ≡ spec.or_told_if (spec.told_if again (WordError.Repeated place)) excluded (WordError.Excluded place) }
{
    if again {
        Some(WordError::Repeated(place))
    } else if excluded {
        Some(WordError::Excluded(place))
    } else {
        None
    }
}

impl<'a> Options<'a> {
    fn none() -> Options<'a>
        ensures { (play : Bool) (workers : ℕ) → Says play workers [] result }
    {
        Options {
            entries: 0,
            setup: None,
            finish: None,
            turns: None,
            show: false,
            bytes: false,
            trim: false,
            watched: false,
            schedule: None,
        }
    }

    /// What is wrong with the word of an option, which stands at this place after these.
    fn word_fault(&self, name: OptionName, place: usize) -> Option<WordError>
        ensures { (entries watch : List Word) → self.now.watched ≡ has_some watch → result ≡ spec.word_fault (asked_of self.now entries watch) place name }
    {
        match name {
            OptionName::Entry => None,
            OptionName::Setup => told_if(self.setup.is_some(), WordError::Repeated(place)),
            OptionName::Finish => told_if(self.finish.is_some(), WordError::Repeated(place)),
            OptionName::Turns => told_if(self.turns.is_some(), WordError::Repeated(place)),
            OptionName::Record => again_or_excluded(self.show, self.bytes, place),
            OptionName::Bytes => again_or_excluded(self.bytes, self.show || self.watched, place),
            OptionName::Trim => told_if(self.trim, WordError::Repeated(place)),
            OptionName::Watch => told_if(self.bytes, WordError::Excluded(place)),
            OptionName::Schedule => told_if(self.schedule.is_some(), WordError::Repeated(place)),
        }
    }

    /// What is wrong with the value of an option, whose word is number `at` of the line, counted from 0.
    fn value_fault(
        &self,
        line: Line<'a>,
        at: usize,
        name: OptionName,
        value: &String,
    ) -> Option<WordError>
        requires within { at + 1 < length line.words.now }
        requires few { length line.words.now + 1 < 2 ^ 64 }
        ensures { (entries watch : List Word) → self.now.entries ≡ length entries
            → watch ≡ values_of line.entry.play listed.Watches None (map string_bytes (take at line.entry.words.now))
            → result ≡ spec.value_fault line.entry.workers (asked_of self.now entries watch) (at + 2) name (string_bytes value.now) }
    {
        let place = at + 2;
        match name {
            OptionName::Entry => told_if(self.entries >= MAX_ENTRIES, WordError::TooManyEntries),
            OptionName::Turns => told_if(
                number_in(value.as_bytes(), 1, MAX_TURNS).is_none(),
                WordError::BadNumber(place + 1),
            ),
            OptionName::Watch => told_if(
                is_watched(&line.words[..at], line.play, value),
                WordError::Repeated(place),
            ),
            OptionName::Schedule => told_if(
                !is_schedule(value.as_bytes(), line.workers as u64),
                WordError::BadNumber(place + 1),
            ),
            _ => None,
        }
    }

    fn set_flag(&mut self, name: OptionName)
        ensures asked { (entries watch : List Word) → asked_of self.new entries watch ≡ spec.with_flag (asked_of self.old entries watch) name }
        ensures entries { self.new.entries ≡ self.old.entries }
        ensures turns { self.new.turns ≡ self.old.turns }
        ensures watched { self.new.watched ≡ self.old.watched }
    {
        match name {
            OptionName::Record => self.show = true,
            OptionName::Bytes => self.bytes = true,
            OptionName::Trim => self.trim = true,
            _ => (),
        }
    }

    fn set_value(&mut self, name: OptionName, value: &'a String)
        requires { self.old.entries ≤ 8 }
        ensures { Takes self.old self.new name (string_bytes value.now) }
    {
        match name {
            OptionName::Entry => self.entries += 1,
            OptionName::Setup => self.setup = Some(value.as_bytes()),
            OptionName::Finish => self.finish = Some(value.as_bytes()),
            OptionName::Turns => self.turns = number_in(value.as_bytes(), 1, MAX_TURNS),
            OptionName::Watch => self.watched = true,
            OptionName::Schedule => self.schedule = Some(value.as_bytes()),
            _ => (),
        }
    }
}

impl<'a> Line<'a> {
    /// Reads the option at this place of the line, counted from 0, and answers the place of the next.
    fn read_option(&self, at: usize, options: &mut Options<'a>) -> Result<usize, WordError>
        requires within { at < length self.now.words.now }
        requires few { length self.now.words.now + 1 < 2 ^ 64 }
        requires before { Says self.now.play self.now.workers (take at (map string_bytes self.now.words.now)) options.old }
        ensures onward { IfOk result (λ next. (at < next) × (next ≤ length self.now.words.now)) }
        ensures read { IfOk result (λ next. Says self.now.play self.now.workers (take next (map string_bytes self.now.words.now)) options.new) }
        ensures refused { IfErr result (λ e. IsBadLine self.now.play self.now.workers (take at (map string_bytes self.now.words.now)) (drop at (map string_bytes self.now.words.now)) e) }
    {
        let place = at + 2;
        let Some(name) = option_named(&self.words[at], self.play) else {
            return Err(WordError::UnknownWord(place));
        };
        if let Some(error) = options.word_fault(name, place) {
            return Err(error);
        }
        if !takes_value(name) {
            options.set_flag(name);
            return Ok(at + 1);
        }
        if at + 1 == self.words.len() {
            return Err(WordError::MissingValue(place));
        }
        let value = &self.words[at + 1];
        if let Some(error) = options.value_fault(*self, at, name, value) {
            return Err(error);
        }
        options.set_value(name, value);
        Ok(at + 2)
    }

    /// What the options of the line say.
    pub fn read(&self) -> Result<Options<'a>, WordError>
        requires { length self.now.words.now + 1 < 2 ^ 64 }
        ensures read { IfOk result (λ options. Says self.now.play self.now.workers (map string_bytes self.now.words.now) options × (0 < options.entries)) }
        ensures refused { IfErr result (λ e. IsBadSomewhere self.now.play self.now.workers (map string_bytes self.now.words.now) e) }
    {
        let mut options = Options::none();
        let mut at = 0;
        while at < self.words.len() {
            at = self.read_option(at, &mut options)?;
        }
        if options.entries == 0 {
            return Err(WordError::NoEntry);
        }
        Ok(options)
    }
}

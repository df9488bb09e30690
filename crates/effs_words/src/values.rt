//! The values of options in a line, whatever else is wrong in it.

ghost use Rattle.std.specs.Prelude.{◌≡◌, ◌+◌, ◌<◌, ◌^◌, Some, None, IfOk, length, map, slice_get, string_bytes};
ghost use Rattle.std.specs.List.{list_any};
ghost use Rattle.std.specs.Str.{bytes_eq};
ghost use Rattle.effs_words.specs.Options as spec;

use crate::options::{OptionName, option_named, takes_value};
use byte_texts::Text;
use sqlite_items::Items;
use std::alloc::{AllocError, Global};

/// The options whose values are listed.
#[derive(Clone, Copy)]
pub enum Listed {
    Entries,
    Watches,
}

fn is_listed(listed: Listed, name: OptionName) -> bool
    ensures { result ≡ spec.is_listed listed name }
{
    match listed {
        Listed::Entries => match name {
            OptionName::Entry => true,
            _ => false,
        },
        Listed::Watches => match name {
            OptionName::Watch => true,
            _ => false,
        },
    }
}

/// The option that a word names, if it takes the next word as its value.
fn awaited(word: &String, play: bool) -> Option<OptionName>
    ensures { result ≡ spec.awaited play (string_bytes word.now) }
{
    match option_named(word, play) {
        Some(name) => { if takes_value(name) { Some(name) } else { None } }
        None => None,
    }
}

/// How many entries a line names.
#[tactic(auto, unfolding(crate::specs::Options::entry_count))]
pub fn entry_count(words: &[String], play: bool) -> usize
    ensures { result ≡ spec.entry_count play (map string_bytes words.now) }
{
    let mut count = 0;
    let mut before = None;
    for word in words {
        match before {
            Some(name) => {
                if is_listed(Listed::Entries, name) {
                    count += 1;
                }
                before = None;
            }
            None => before = awaited(word, play),
        }
    }
    count
}

/// Whether a line has `--watch` with this name.
pub fn is_watched(words: &[String], play: bool, watch: &String) -> bool
    ensures { result ≡ list_any (bytes_eq (string_bytes watch.now)) (spec.values_of play Listed.Watches None (map string_bytes words.now)) }
{
    let mut before = None;
    for word in words {
        match before {
            Some(name) => {
                if is_listed(Listed::Watches, name) && watch.as_str() == word.as_str() {
                    return true;
                }
                before = None;
            }
            None => before = awaited(word, play),
        }
    }
    false
}

/// The place of a name that `--watch` gives, the one of this number of them, counted from 0. `options` are the words after the
/// command.
#[tactic(auto, unfolding(crate::specs::Options::watch_places))]
pub fn watch_place(options: &[String], play: bool, number: usize) -> Option<usize>
    requires { length options.now + 2 < 2 ^ 64 }
    ensures { result ≡ slice_get (spec.watch_places play (map string_bytes options.now)) number }
{
    let mut left = number;
    let mut place = 2;
    let mut before = None;
    for word in options {
        match before {
            Some(name) => {
                if is_listed(Listed::Watches, name) {
                    if left == 0 {
                        return Some(place);
                    }
                    left -= 1;
                }
                before = None;
            }
            None => before = awaited(word, play),
        }
        place += 1;
    }
    None
}

/// A text of these bytes.
pub fn text_of(alloc: Global, bytes: &[u8]) -> Result<Text, AllocError>
    ensures { IfOk result (λ text. text ≡ bytes.now) }
{
    let mut text = Text::new(alloc);
    text.append(bytes)?;
    Ok(text)
}

/// The values of an option in a line, in their order.
pub fn values_of(
    alloc: Global,
    words: &[String],
    play: bool,
    listed: Listed,
) -> Result<Items<Text>, AllocError>
    ensures { IfOk result (λ texts. texts ≡ spec.values_of play listed None (map string_bytes words.now)) }
{
    let mut texts = Items::new(alloc);
    let mut before = None;
    for word in words {
        match before {
            Some(name) => {
                if is_listed(listed, name) {
                    texts.push(text_of(alloc, word.as_bytes())?)?;
                }
                before = None;
            }
            None => before = awaited(word, play),
        }
    }
    Ok(texts)
}

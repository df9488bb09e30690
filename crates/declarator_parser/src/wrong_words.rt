//! Which word of specifiers that hold no type, or more than one, is the first that no right list begins with.

use c_grammar::{BasicWord, Place, Specifier};

/// How often the words of a type stand, and whole types.
#[derive(Clone, Copy)]
struct Tally {
    void: u8,
    char: u8,
    short: u8,
    int: u8,
    long: u8,
    signs: u8,
    whole: u8,
}

fn with_word(mut tally: Tally, word: BasicWord) -> Tally {
    match word {
        BasicWord::Void => tally.void = tally.void.saturating_add(1),
        BasicWord::Char => tally.char = tally.char.saturating_add(1),
        BasicWord::Short => tally.short = tally.short.saturating_add(1),
        BasicWord::Int => tally.int = tally.int.saturating_add(1),
        BasicWord::Long => tally.long = tally.long.saturating_add(1),
        BasicWord::Signed | BasicWord::Unsigned => tally.signs = tally.signs.saturating_add(1),
    }
    tally
}

fn with_whole_type(mut tally: Tally) -> Tally {
    tally.whole = tally.whole.saturating_add(1);
    tally
}

fn with_specifier(tally: Tally, specifier: &Specifier) -> Tally {
    match specifier {
        Specifier::Storage(..) | Specifier::Qualifier(..) => tally,
        Specifier::Basic(_, word) => with_word(tally, *word),
        _ => with_whole_type(tally),
    }
}

/// Whether some right list of words begins with these (C11 6.7.2p2).
fn begins_type(tally: Tally) -> bool {
    let Tally {
        void,
        char,
        short,
        int,
        long,
        signs,
        whole,
    } = tally;
    let has_size = short > 0 || long > 0;
    let has_word = void > 0 || char > 0 || has_size || int > 0 || signs > 0;
    if whole > 0 {
        return whole == 1 && !has_word;
    }
    if void > 0 {
        return void == 1 && char == 0 && !has_size && int == 0 && signs == 0;
    }
    if signs > 1 || int > 1 || char > 1 || short > 1 || long > 2 {
        return false;
    }
    if char > 0 {
        return !has_size && int == 0;
    }
    short == 0 || long == 0
}

fn place_of(specifier: &Specifier) -> Place {
    match specifier {
        Specifier::Storage(place, _)
        | Specifier::Qualifier(place, _)
        | Specifier::Basic(place, _)
        | Specifier::Members(place, _, _, _)
        | Specifier::Tag(place, _, _)
        | Specifier::Enumerators(place, _, _)
        | Specifier::EnumTag(place, _)
        | Specifier::TypedefName(place) => *place,
    }
}

/// How often the words of these specifiers stand, or the first token of the first of them with which no right list begins.
fn tally_of(specifiers: &[Specifier]) -> Result<Tally, u32> {
    let mut tally = Tally {
        void: 0,
        char: 0,
        short: 0,
        int: 0,
        long: 0,
        signs: 0,
        whole: 0,
    };
    for specifier in specifiers {
        tally = with_specifier(tally, specifier);
        if !begins_type(tally) {
            return Err(place_of(specifier).token);
        }
    }
    Ok(tally)
}

/// The first token of the first of these specifiers with which no right list begins; `next` where there is none.
pub fn first_wrong(specifiers: &[Specifier], next: u32) -> u32 {
    match tally_of(specifiers) {
        Ok(_) => next,
        Err(wrong) => wrong,
    }
}

/// The same where a whole type begins after them, at this token; nothing where some right list begins with all of them.
pub fn first_wrong_with_type(specifiers: &[Specifier], start: u32) -> Option<u32> {
    match tally_of(specifiers) {
        Ok(tally) => (!begins_type(with_whole_type(tally))).then_some(start),
        Err(wrong) => Some(wrong),
    }
}

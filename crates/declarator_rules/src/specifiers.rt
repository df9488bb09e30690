//! Storage words, and basic types (C11 6.7.1, 6.7.2).

ghost use Rattle.std.specs.Prelude.{◌≡◌};
ghost use Rattle.declaration_rules.specs.Specifiers as spec;
ghost use Rattle.declaration_rules.specs.Storage as storage;
ghost use Rattle.declarator_rules.specs.Words.{has_word, is_same_word};

use c_grammar::{BasicWord, Storage};
use c_types::TypeNo;
use declaration_rules::Setting;
use operand_plans::{
    CHAR, INT, LONG, SHORT, UNSIGNED_CHAR, UNSIGNED_INT, UNSIGNED_LONG, UNSIGNED_SHORT, VOID,
};
use static_rules::{CheckKind, Feature, Made, Where};

/// Whether a word says more than that it is read.
pub fn has_effect(word: Storage) -> bool
    ensures { result ≡ storage.has_effect word }
{
    matches!(word, Storage::Typedef | Storage::Extern)
}

fn mismatch_if(test: bool) -> Option<CheckKind>
    ensures { result ≡ storage.mismatch_if test }
{
    if test {
        Some(CheckKind::TypeMismatch)
    } else {
        None
    }
}

/// Why a storage word may not stand there, behind one with an effect or not.
pub fn storage_fault(
    setting: Setting,
    place: Where,
    behind: bool,
    word: Storage,
) -> Option<CheckKind>
    ensures { result ≡ storage.storage_fault setting place behind word }
{
    match setting {
        Setting::Declaration(_) => {
            if place.in_function && matches!(word, Storage::Static) {
                Some(CheckKind::LeftOut(Feature::StaticLocal))
            } else {
                mismatch_if(behind && has_effect(word))
            }
        }
        Setting::Definition => {
            mismatch_if(matches!(word, Storage::Typedef) || behind && has_effect(word))
        }
        Setting::Member | Setting::Parameter => mismatch_if(matches!(word, Storage::Typedef)),
        Setting::TypeName => Some(CheckKind::TypeMismatch),
    }
}

/// Whether a word stands among others.
fn has(word: BasicWord, mut words: &[BasicWord]) -> bool
    ensures { result ≡ has_word word words.entry.now }
{
    while let [first, rest @ ..] = words {
        if is_word(word, *first) {
            return true;
        }
        words = rest;
    }
    false
}

fn is_word(word: BasicWord, other: BasicWord) -> bool
    ensures { result ≡ is_same_word word other }
{
    match word {
        BasicWord::Void => matches!(other, BasicWord::Void),
        BasicWord::Char => matches!(other, BasicWord::Char),
        BasicWord::Short => matches!(other, BasicWord::Short),
        BasicWord::Long => matches!(other, BasicWord::Long),
        BasicWord::Unsigned => matches!(other, BasicWord::Unsigned),
        BasicWord::Int | BasicWord::Signed => false,
    }
}

/// The type that words spell which the grammar lets stand together (C11 6.7.2p2): the number of one of the nine types
/// that each table has.
pub fn basic_type(words: &[BasicWord]) -> TypeNo
    ensures { result ≡ spec.basic_type words.now }
{
    let unsigned = has(BasicWord::Unsigned, words);
    if has(BasicWord::Void, words) {
        VOID
    } else if has(BasicWord::Char, words) {
        if unsigned { UNSIGNED_CHAR } else { CHAR }
    } else if has(BasicWord::Short, words) {
        if unsigned { UNSIGNED_SHORT } else { SHORT }
    } else if has(BasicWord::Long, words) {
        if unsigned { UNSIGNED_LONG } else { LONG }
    } else if unsigned {
        UNSIGNED_INT
    } else {
        INT
    }
}

/// The type that specifiers hold: the one that is none of basic words, or what those spell.
pub fn type_or(words: &[BasicWord], made: Option<Made>) -> Made
    ensures { result ≡ spec.type_or words.now made }
{
    match made {
        Some(made) => made,
        None => Made::Known(basic_type(words)),
    }
}

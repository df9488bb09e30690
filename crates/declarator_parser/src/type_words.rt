//! Which type the words of specifiers spell, and what they declare (C11 6.7.2p2, 6.7.8).

ghost use Rattle.std.specs.Prelude.{◌≡◌, not, option_map};
ghost use Rattle.c_grammar.specs.Words.{basic_words, whole_types as number_of_types};
ghost use Rattle.c_grammar.specs.Scope.{declared_kind as kind_by_roles};
ghost use Rattle.grammar_descent.specs.TypeWords as types;
ghost use Rattle.declarator_parser.specs.Roles as spec;
ghost use Rattle.declarator_parser.specs.Signs.{as_sign};

use c_grammar::{BasicType, BasicWord, NameKind, Specifier, Storage};

fn is_word(word: &Specifier, which: BasicWord) -> bool
    ensures { result ≡ spec.spells_word which (spec.role_of word.now) }
{
    match word {
        Specifier::Basic(_, found) => which == *found,
        _ => false,
    }
}

fn is_whole(word: &Specifier) -> bool
    ensures { result ≡ spec.is_whole (spec.role_of word.now) }
{
    match word {
        Specifier::Storage(..) | Specifier::Qualifier(..) | Specifier::Basic(..) => false,
        _ => true,
    }
}

fn makes_types(word: &Specifier) -> bool
    ensures { result ≡ spec.makes_types (spec.role_of word.now) }
{
    match word {
        Specifier::Storage(_, Storage::Typedef) => true,
        _ => false,
    }
}

/// How often the word stands among the specifiers.
fn times(words: &[Specifier], which: BasicWord) -> usize
    ensures { result ≡ types.times which (basic_words (spec.roles_of words.now)) }
{
    words.iter().filter(|word| is_word(word, which)).count()
}

/// How many of the specifiers are types by themselves.
fn whole_types(words: &[Specifier]) -> usize
    ensures { result ≡ number_of_types (spec.roles_of words.now) }
{
    words.iter().filter(|word| is_whole(word)).count()
}

fn is_of_type(word: &Specifier) -> bool
    ensures { result ≡ spec.is_of_type (spec.role_of word.now) }
{
    match word {
        Specifier::Storage(..) | Specifier::Qualifier(..) => false,
        _ => true,
    }
}

/// Whether the specifiers hold no type so far: a name that is a type is theirs only then.
pub fn holds_no_type(words: &[Specifier]) -> bool
    ensures { result ≡ types.holds_no_type (spec.roles_of words.now) }
{
    words.iter().filter(|word| is_of_type(word)).count() == 0
}

/// What a name is that is declared after them.
pub fn declared_kind(words: &[Specifier]) -> NameKind
    ensures { result ≡ kind_by_roles (spec.roles_of words.now) }
{
    if words.iter().filter(|word| makes_types(word)).count() == 0 {
        NameKind::Ordinary
    } else {
        NameKind::Type
    }
}

/// How `signed` and `unsigned` stand among the words.
#[derive(Clone, Copy, Debug, PartialEq, Eq)]
enum Sign {
    Plain,
    Signed,
    Unsigned,
}

/// Which sign the words have where `signed` and `unsigned` stand so often.
fn sign_of(signed: usize, unsigned: usize) -> Option<Sign>
    ensures { option_map as_sign result ≡ types.sign_of signed unsigned }
{
    match (signed, unsigned) {
        (0, 0) => Some(Sign::Plain),
        (1, 0) => Some(Sign::Signed),
        (0, 1) => Some(Sign::Unsigned),
        _ => None,
    }
}

fn signed_or(sign: Sign, one: BasicType, other: BasicType) -> BasicType
    ensures { result ≡ types.signed_or (as_sign sign) one other }
{
    match sign {
        Sign::Plain | Sign::Signed => one,
        Sign::Unsigned => other,
    }
}

fn void_type(sign: Sign) -> Option<BasicType>
    ensures { result ≡ types.void_type (as_sign sign) }
{
    match sign {
        Sign::Plain => Some(BasicType::Void),
        Sign::Signed | Sign::Unsigned => None,
    }
}

/// The type of `int` so often, where no other word but a sign stands.
fn int_type(int: usize, sign: Sign) -> Option<BasicType>
    ensures { result ≡ types.int_type int (as_sign sign) }
{
    match sign {
        Sign::Plain => (int == 1).then_some(BasicType::Int),
        Sign::Signed => (int <= 1).then_some(BasicType::Int),
        Sign::Unsigned => (int <= 1).then_some(BasicType::UnsignedInt),
    }
}

/// The type of the words that stand so often, with this sign.
fn type_of(
    void: usize,
    char: usize,
    short: usize,
    int: usize,
    long: usize,
    sign: Sign,
) -> Option<BasicType>
    ensures { result ≡ types.type_of void char short int long (as_sign sign) }
{
    if long > 0 {
        let fits = long <= 2 && short == 0 && char == 0 && void == 0 && int <= 1;
        fits.then_some(signed_or(sign, BasicType::Long, BasicType::UnsignedLong))
    } else if short > 0 {
        let fits = short == 1 && char == 0 && void == 0 && int <= 1;
        fits.then_some(signed_or(sign, BasicType::Short, BasicType::UnsignedShort))
    } else if char > 0 {
        let fits = char == 1 && void == 0 && int == 0;
        fits.then_some(signed_or(sign, BasicType::Char, BasicType::UnsignedChar))
    } else if void > 0 {
        if void == 1 && int == 0 {
            void_type(sign)
        } else {
            None
        }
    } else {
        int_type(int, sign)
    }
}

/// The basic type that the words among the specifiers spell, in whatever order, if they spell one (C11 6.7.2p2).
pub fn spelled_type(words: &[Specifier]) -> Option<BasicType>
    ensures { result ≡ types.spelled_type (basic_words (spec.roles_of words.now)) }
{
    let signed = times(words, BasicWord::Signed);
    let unsigned = times(words, BasicWord::Unsigned);
    let Some(sign) = sign_of(signed, unsigned) else {
        return None;
    };
    let void = times(words, BasicWord::Void);
    let char = times(words, BasicWord::Char);
    let short = times(words, BasicWord::Short);
    let int = times(words, BasicWord::Int);
    let long = times(words, BasicWord::Long);
    type_of(void, char, short, int, long, sign)
}

fn is_basic(word: &Specifier) -> bool
    ensures { result ≡ spec.is_basic (spec.role_of word.now) }
{
    match word {
        Specifier::Basic(..) => true,
        _ => false,
    }
}

fn has_word(words: &[Specifier]) -> bool
    ensures { result ≡ not (types.are_none (basic_words (spec.roles_of words.now))) }
{
    words.iter().filter(|word| is_basic(word)).count() > 0
}

/// Whether the specifiers hold one type: words that spell one, or one by itself.
pub fn holds_one_type(words: &[Specifier]) -> bool
    ensures { result ≡ types.holds_one_type (spec.roles_of words.now) }
{
    let types = whole_types(words);
    if types == 0 {
        spelled_type(words).is_some()
    } else {
        types == 1 && !has_word(words)
    }
}

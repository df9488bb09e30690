//! Types of the form: each is one word, or a pointer to one.

ghost use Rattle.std.specs.Prelude.{◌≡◌};
ghost use Rattle.std.specs.Option.{option_copied};
ghost use Rattle.form_parts.specs.Layers as layer;
ghost use Rattle.form_parts.specs.Types as spec;

use c_grammar::{BasicWord, Declarator, Specifier, Specs, TypePhrase};
use plain_meaning::Target;
use token_texts::TokenTexts;

/// The one that there is, where there is one alone.
pub fn only<T>(all: &[T]) -> Option<&T>
    ensures { option_copied result ≡ layer.only all.now }
{
    match all {
        [one] => Some(one),
        _ => None,
    }
}

#[tactic(auto, unfolding(crate::specs::Types::word_of))]
fn word_of(specifier: &Specifier) -> Option<BasicWord>
    ensures { result ≡ spec.word_of specifier.now }
{
    match specifier {
        Specifier::Basic(_, word) => Some(*word),
        _ => None,
    }
}

/// The word that the specifiers are.
#[tactic(auto, unfolding(crate::specs::Types::lone_word))]
fn lone_word(specs: &Specs) -> Option<BasicWord>
    ensures { result ≡ spec.lone_word specs.now }
{
    match only(specs.words.as_slice()) {
        Some(specifier) => word_of(specifier),
        None => None,
    }
}

/// What a pointer points to that is declared with the specifiers.
#[tactic(auto, unfolding(crate::specs::Types::target))]
pub fn target(specs: &Specs) -> Option<Target>
    ensures { result ≡ spec.target specs.now }
{
    match lone_word(specs) {
        Some(BasicWord::Int) => Some(Target::Int),
        Some(BasicWord::Char) => Some(Target::Char),
        _ => None,
    }
}

#[tactic(auto, unfolding(crate::specs::Types::is_void))]
pub fn is_void(specs: &Specs) -> bool
    ensures { result ≡ spec.is_void specs.now }
{
    match lone_word(specs) {
        Some(BasicWord::Void) => true,
        _ => false,
    }
}

/// The name that a declarator is.
#[tactic(auto, unfolding(crate::specs::Types::declared_name))]
pub fn declared_name(texts: &TokenTexts, declarator: &Declarator) -> Option<u32>
    ensures { result ≡ spec.declared_name texts.now declarator.now }
{
    match declarator {
        Declarator::Name(place) => Some(texts.number(place.token)),
        _ => None,
    }
}

/// What stands after the `*` of a declarator, if no qualifiers do.
#[tactic(auto, unfolding(crate::specs::Types::after_star))]
pub fn after_star(declarator: &Declarator) -> Option<&Declarator>
    ensures { option_copied result ≡ spec.after_star declarator.now }
{
    match declarator {
        Declarator::Pointer(_, qualifiers, inner) => {
            if qualifiers.len() == 0 {
                Some(inner.get())
            } else {
                None
            }
        }
        _ => None,
    }
}

#[tactic(auto, unfolding(crate::specs::Types::is_unnamed))]
fn is_unnamed(declarator: &Declarator) -> bool
    ensures { result ≡ spec.is_unnamed declarator.now }
{
    match declarator {
        Declarator::Unnamed => true,
        _ => false,
    }
}

/// What a type points to that is `int *` or `char *`.
#[tactic(auto, unfolding(crate::specs::Types::pointer_target))]
pub fn pointer_target(type_phrase: &TypePhrase) -> Option<Target>
    ensures { result ≡ spec.pointer_target type_phrase.now }
{
    match after_star(&type_phrase.declarator) {
        Some(inner) => {
            if is_unnamed(inner) {
                target(&type_phrase.specs)
            } else {
                None
            }
        }
        None => None,
    }
}

//! Names of variables, and what stands where a pointer is given.

ghost use Rattle.std.specs.Prelude.{◌≡◌};
ghost use Rattle.form_parts.specs.Pointers as spec;

use crate::reserved::is_malloc;
use crate::scope::Scope;
use crate::types::{only, pointer_target};
use c_grammar::Expression;
use c_tokens::NumType;
use plain_meaning::{Pointer, Target};
use token_texts::TokenTexts;

/// The name that an expression is.
#[tactic(auto, unfolding(crate::specs::Pointers::lone_name))]
pub fn lone_name(texts: &TokenTexts, expression: &Expression) -> Option<u32>
    ensures { result ≡ spec.lone_name texts.now expression.now }
{
    match expression {
        Expression::Name(place) => Some(texts.number(place.token)),
        _ => None,
    }
}

/// The pointer that an expression names.
#[tactic(auto, unfolding(crate::specs::Pointers::pointer))]
pub fn pointer(texts: &TokenTexts, scope: &Scope, expression: &Expression) -> Option<Pointer>
    ensures { result ≡ spec.pointer texts.now scope.now expression.now }
{
    match lone_name(texts, expression) {
        Some(name) => scope.pointer(name),
        None => None,
    }
}

fn is_same_target(one: Target, other: Target) -> bool
    ensures { result ≡ spec.is_same_target one other }
{
    match (one, other) {
        (Target::Int, Target::Int) => true,
        (Target::Char, Target::Char) => true,
        _ => false,
    }
}

/// `(TARGET *)NAME`: the pointer that is converted.
#[tactic(auto, unfolding(crate::specs::Pointers::cast))]
pub fn cast(
    texts: &TokenTexts,
    scope: &Scope,
    target: Target,
    expression: &Expression,
) -> Option<Pointer>
    ensures { result ≡ spec.cast texts.now scope.now target expression.now }
{
    match expression {
        Expression::Cast(_, type_phrase, operand) => {
            let found = pointer_target(type_phrase.get())?;
            if is_same_target(found, target) {
                pointer(texts, scope, operand.get())
            } else {
                None
            }
        }
        _ => None,
    }
}

/// A number of bytes from 0 to 31.
#[tactic(auto, unfolding(crate::specs::Pointers::size))]
fn size(expression: &Expression) -> Option<u32>
    ensures { result ≡ spec.size expression.now }
{
    match expression {
        Expression::Number(_, size, NumType::Int) if *size < 32 => Some(*size as u32),
        _ => None,
    }
}

/// `malloc(SIZE)`: the size.
#[tactic(auto, unfolding(crate::specs::Pointers::malloc))]
pub fn malloc(texts: &TokenTexts, expression: &Expression) -> Option<u32>
    ensures { result ≡ spec.malloc texts.now expression.now }
{
    match expression {
        Expression::Call(_, function, arguments) => {
            let name = lone_name(texts, function.get())?;
            if is_malloc(texts.name(name)) {
                size(only(arguments.as_slice())?)
            } else {
                None
            }
        }
        _ => None,
    }
}

//! Expressions, specifiers and declarators as text.

use crate::marks;
use crate::sketch::Sketch;
use c_grammar::{
    Declarator, Enumerator, Expression, Member, Parameter, Place, Specifier, Specs, TypePhrase,
};

/// The word that a node in brackets begins with, or none for one without parts.
fn head(node: &Expression) -> Option<&'static str> {
    match node {
        Expression::Name(..)
        | Expression::Number(..)
        | Expression::Character(..)
        | Expression::Strings(..) => None,
        Expression::Parentheses(..) => Some("paren"),
        Expression::Index(..) => Some("index"),
        Expression::Call(..) => Some("call"),
        Expression::Select(_, how, ..) => Some(marks::selection(*how)),
        Expression::Postfix(_, operator, _) => Some(marks::postfix(*operator)),
        Expression::Prefix(_, operator, _) => Some(marks::prefix(*operator)),
        Expression::SizeOf(..) => Some("sizeof"),
        Expression::SizeOfType(..) => Some("sizeof-type"),
        Expression::Cast(..) => Some("cast"),
        Expression::Binary(_, operator, ..) => Some(marks::binary(*operator)),
        Expression::Conditional(..) => Some("?:"),
        Expression::Assign(_, operator, ..) => Some(marks::assignment(*operator)),
        Expression::Comma(..) => Some(","),
    }
}

fn place(node: &Expression) -> Place {
    match node {
        Expression::Name(place)
        | Expression::Number(place, ..)
        | Expression::Character(place, ..)
        | Expression::Strings(place, ..)
        | Expression::Parentheses(place, ..)
        | Expression::Index(place, ..)
        | Expression::Call(place, ..)
        | Expression::Select(place, ..)
        | Expression::Postfix(place, ..)
        | Expression::Prefix(place, ..)
        | Expression::SizeOf(place, ..)
        | Expression::SizeOfType(place, ..)
        | Expression::Cast(place, ..)
        | Expression::Binary(place, ..)
        | Expression::Conditional(place, ..)
        | Expression::Assign(place, ..)
        | Expression::Comma(place, ..) => *place,
    }
}

/// An expression as one word, or as `(operator operand ..)`.
#[cycle(phrases)]
pub fn expression(out: &mut Sketch<'_>, node: &Expression) {
    match head(node) {
        None => {
            out.place(place(node));
            parts(out, node);
        }
        Some(head) => {
            out.node(place(node), head);
            parts(out, node);
            out.close(")");
        }
    }
}

/// What an expression is made of. Strings in a row are how many they are.
#[cycle(phrases)]
fn parts(out: &mut Sketch<'_>, node: &Expression) {
    match node {
        Expression::Name(place) => out.name(place.token),
        Expression::Number(_, value, kind) => out.number(*value, marks::suffix(*kind)),
        Expression::Character(_, value) => out.character(*value),
        Expression::Strings(place, to) => out.strings(to.saturating_sub(place.token)),
        Expression::Parentheses(_, inner)
        | Expression::Postfix(_, _, inner)
        | Expression::Prefix(_, _, inner)
        | Expression::SizeOf(_, inner) => expression(out, inner.get()),
        Expression::Select(_, _, operand, name) => {
            expression(out, operand.get());
            out.name(*name);
        }
        Expression::Index(_, left, right)
        | Expression::Binary(_, _, left, right)
        | Expression::Assign(_, _, left, right) => {
            expression(out, left.get());
            expression(out, right.get());
        }
        Expression::Conditional(_, test, then, otherwise) => {
            expression(out, test.get());
            expression(out, then.get());
            expression(out, otherwise.get());
        }
        Expression::Call(_, function, arguments) => {
            expression(out, function.get());
            out.open("[");
            expressions(out, arguments.as_slice());
            out.close("]");
        }
        Expression::Comma(_, all) => expressions(out, all.as_slice()),
        Expression::SizeOfType(_, named) => type_phrase(out, named.get()),
        Expression::Cast(_, named, operand) => {
            type_phrase(out, named.get());
            expression(out, operand.get());
        }
    }
}

#[cycle(phrases)]
fn expressions(out: &mut Sketch<'_>, all: &[Expression]) {
    for one in all {
        expression(out, one);
    }
}

/// The name of a type as `(type [words] declarator)`.
#[cycle(phrases)]
pub fn type_phrase(out: &mut Sketch<'_>, node: &TypePhrase) {
    out.node(node.place, "type");
    specs(out, &node.specs);
    declarator(out, &node.declarator);
    out.close(")");
}

/// Specifiers as `[word word ..]`.
#[cycle(phrases)]
pub fn specs(out: &mut Sketch<'_>, node: &Specs) {
    out.place(node.place);
    out.open("[");
    for word in node.words.as_slice() {
        specifier(out, word);
    }
    out.close("]");
}

/// A specifier as its word, or as `(struct tag)`, `(struct tag [member ..])`, `(enum tag [constant ..])`, with `-` for no tag.
#[cycle(phrases)]
fn specifier(out: &mut Sketch<'_>, node: &Specifier) {
    match node {
        Specifier::Storage(place, which) => out.leaf(*place, marks::storage(*which)),
        Specifier::Qualifier(place, which) => out.leaf(*place, marks::qualifier(*which)),
        Specifier::Basic(place, which) => out.leaf(*place, marks::basic(*which)),
        Specifier::TypedefName(place) => {
            out.place(*place);
            out.name(place.token);
        }
        Specifier::Tag(place, which, tag) => {
            out.node(*place, marks::aggregate(*which));
            out.name(*tag);
            out.close(")");
        }
        Specifier::EnumTag(place, tag) => {
            out.node(*place, "enum");
            out.name(*tag);
            out.close(")");
        }
        Specifier::Members(place, which, tag, all) => {
            out.node(*place, marks::aggregate(*which));
            out.optional_name(*tag);
            out.open("[");
            for one in all.as_slice() {
                member(out, one);
            }
            out.close("])");
        }
        Specifier::Enumerators(place, tag, all) => {
            out.node(*place, "enum");
            out.optional_name(*tag);
            out.open("[");
            for one in all.as_slice() {
                enumerator(out, one);
            }
            out.close("])");
        }
    }
}

/// Members of one declaration as `(member [words] declarator ..)`.
#[cycle(phrases)]
fn member(out: &mut Sketch<'_>, node: &Member) {
    out.node(node.place, "member");
    specs(out, &node.specs);
    for one in node.declarators.as_slice() {
        declarator(out, one);
    }
    out.close(")");
}

/// A constant as its name, or as `(= name value)`.
#[cycle(phrases)]
fn enumerator(out: &mut Sketch<'_>, node: &Enumerator) {
    match &node.value {
        None => {
            out.place(node.place);
            out.name(node.place.token);
        }
        Some(value) => {
            out.node(node.place, "=");
            out.name(node.place.token);
            expression(out, value.get());
            out.close(")");
        }
    }
}

/// A declarator as its name, or `-` for none, with what stands around it outside: `(* word .. inner)`, `(paren inner)`,
/// `(array element size)`, `(function result [parameter ..])`.
#[cycle(phrases)]
pub fn declarator(out: &mut Sketch<'_>, node: &Declarator) {
    match node {
        Declarator::Name(place) => {
            out.place(*place);
            out.name(place.token);
        }
        Declarator::Unnamed => out.word("-"),
        Declarator::Pointer(place, words, inner) => {
            out.node(*place, "*");
            for word in words.as_slice() {
                out.word(marks::qualifier(*word));
            }
            declarator(out, inner.get());
            out.close(")");
        }
        Declarator::Parentheses(place, inner) => {
            out.node(*place, "paren");
            declarator(out, inner.get());
            out.close(")");
        }
        Declarator::Array(place, element, size) => {
            out.node(*place, "array");
            declarator(out, element.get());
            if let Some(size) = size {
                expression(out, size.get());
            }
            out.close(")");
        }
        Declarator::Function(place, result, all) => {
            out.node(*place, "function");
            declarator(out, result.get());
            out.open("[");
            for one in all.as_slice() {
                parameter(out, one);
            }
            out.close("])");
        }
    }
}

/// A parameter as `([words] declarator)`.
#[cycle(phrases)]
fn parameter(out: &mut Sketch<'_>, node: &Parameter) {
    out.place(node.place);
    out.open("(");
    specs(out, &node.specs);
    declarator(out, &node.declarator);
    out.close(")");
}

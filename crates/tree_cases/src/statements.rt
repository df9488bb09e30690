//! Declarations, statements and whole texts as text.

use crate::phrases::{declarator, expression, specs};
use crate::sketch::Sketch;
use c_grammar::{
    Block, BlockItem, Declaration, Expression, External, ForStart, Function, InitDeclarator,
    Initialiser, Place, Statement, Unit,
};

/// An initialiser as its expression, or as `{part ..}`.
fn initialiser(out: &mut Sketch<'_>, node: &Initialiser) {
    match node {
        Initialiser::Value(value) => expression(out, value),
        Initialiser::Braces(place, all) => {
            out.place(*place);
            out.open("{");
            for one in all.as_slice() {
                initialiser(out, one);
            }
            out.close("}");
        }
    }
}

/// A declarator as it is, or with its initialiser as `(= declarator initialiser)`.
fn init_declarator(out: &mut Sketch<'_>, node: &InitDeclarator) {
    match &node.value {
        None => {
            out.place(node.place);
            declarator(out, &node.declarator);
        }
        Some(value) => {
            out.node(node.place, "=");
            declarator(out, &node.declarator);
            initialiser(out, value);
            out.close(")");
        }
    }
}

/// A declaration as `(declare [words] declarator ..)`.
fn declaration(out: &mut Sketch<'_>, node: &Declaration) {
    out.node(node.place, "declare");
    specs(out, &node.specs);
    for one in node.declarators.as_slice() {
        init_declarator(out, one);
    }
    out.close(")");
}

/// An expression, or `-` where it is left out.
fn optional(out: &mut Sketch<'_>, node: &Option<Expression>) {
    match node {
        Some(value) => expression(out, value),
        None => out.word("-"),
    }
}

fn for_start(out: &mut Sketch<'_>, node: &ForStart) {
    match node {
        ForStart::Declaration(first) => declaration(out, first),
        ForStart::Expression(first) => optional(out, first),
    }
}

/// A block as `(block item ..)`.
#[cycle(statements)]
fn block(out: &mut Sketch<'_>, node: &Block) {
    out.node(node.place, "block");
    items(out, node.items.as_slice());
    out.close(")");
}

/// What stands in a block, one after the other.
#[cycle(statements)]
pub fn items(out: &mut Sketch<'_>, all: &[BlockItem]) {
    for one in all {
        match one {
            BlockItem::Declaration(node) => declaration(out, node),
            BlockItem::Statement(node) => statement(out, node),
        }
    }
}

/// The word that a statement begins with.
fn head(node: &Statement) -> &'static str {
    match node {
        Statement::Block(_) => "block",
        Statement::Empty(_) | Statement::Expression(..) => ";",
        Statement::If(..) | Statement::IfElse(..) => "if",
        Statement::While(..) => "while",
        Statement::Do(..) => "do",
        Statement::For(..) => "for",
        Statement::Switch(..) => "switch",
        Statement::Case(..) => "case",
        Statement::Default(_) => "default",
        Statement::Break(_) => "break",
        Statement::Continue(_) => "continue",
        Statement::Return(..) => "return",
    }
}

fn place(node: &Statement) -> Place {
    match node {
        Statement::Block(inner) => inner.place,
        Statement::Empty(place)
        | Statement::Expression(place, ..)
        | Statement::If(place, ..)
        | Statement::IfElse(place, ..)
        | Statement::While(place, ..)
        | Statement::Do(place, ..)
        | Statement::For(place, ..)
        | Statement::Switch(place, ..)
        | Statement::Case(place, ..)
        | Statement::Default(place)
        | Statement::Break(place)
        | Statement::Continue(place)
        | Statement::Return(place, ..) => *place,
    }
}

/// A statement as `(word part ..)`, one of an expression as `(; expression)`.
#[cycle(statements)]
fn statement(out: &mut Sketch<'_>, node: &Statement) {
    out.node(place(node), head(node));
    parts(out, node);
    out.close(")");
}

/// What a statement is made of, in the order in which it stands.
#[cycle(statements)]
fn parts(out: &mut Sketch<'_>, node: &Statement) {
    match node {
        Statement::Block(inner) => items(out, inner.items.as_slice()),
        Statement::Empty(_)
        | Statement::Default(_)
        | Statement::Break(_)
        | Statement::Continue(_) => {}
        Statement::Expression(_, value) | Statement::Case(_, value) => expression(out, value),
        Statement::Return(_, value) => optional(out, value),
        Statement::If(_, test, body) | Statement::While(_, test, body) => {
            expression(out, test);
            statement(out, body.get());
        }
        Statement::IfElse(_, test, then, otherwise) => {
            expression(out, test);
            statement(out, then.get());
            statement(out, otherwise.get());
        }
        Statement::Do(_, body, test) => {
            statement(out, body.get());
            expression(out, test);
        }
        Statement::For(_, start, test, step, body) => {
            for_start(out, start);
            optional(out, test);
            optional(out, step);
            statement(out, body.get());
        }
        Statement::Switch(_, value, body) => {
            expression(out, value);
            block(out, body);
        }
    }
}

/// A function as `(define [words] declarator block)`.
fn function(out: &mut Sketch<'_>, node: &Function) {
    out.node(node.place, "define");
    specs(out, &node.specs);
    declarator(out, &node.declarator);
    block(out, &node.body);
    out.close(")");
}

/// A whole text as its declarations and functions, one after the other.
pub fn unit(out: &mut Sketch<'_>, node: &Unit) {
    for one in node.items.as_slice() {
        match one {
            External::Declaration(node) => declaration(out, node),
            External::Function(node) => function(out, node),
        }
    }
}

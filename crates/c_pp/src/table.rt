//! Directives change the table of macros.

ghost use Rattle.std.specs.Prelude.{◌≡◌, ◌⊎◌, ◌+◌, ◌<◌, ◌≤◌, ℕ, true, length, drop, Some, alloc_error, slice_get, slice_set, IfOk, MatchResult, MatchOption};
ghost use Rattle.c_tokens.specs.declared.token.Token.{Token as Piece};
ghost use Rattle.c_tokens.specs.Names.{Text, Name as Word};
ghost use Rattle.c_pp.specs.Directives.{begins_directive};
ghost use Rattle.c_pp.specs.Macros.{Macros};
ghost use Rattle.c_pp.specs.Expands.{HasPpFault};
ghost use Rattle.c_pp.specs.Marked.{held, marks_of};
ghost use Rattle.c_pp.specs.Walks.{IsSeen};
ghost use Rattle.c_pp.specs.Changes.{IsChanged, IsObeyed};

use crate::directive::{Directive, line_len, read_line};
use crate::error::PpError;
use crate::marks::Marks;
use crate::span::Span;
use c_tokens::Token;
use std::alloc::Global;

/// The macros of a text by the number of their name, each with its body as a part of the tokens, and what is known of them.
#[derive(Drop)]
pub struct Table {
    pub bodies: Vec<Option<Span>>,
    pub marks: Marks,
}

/// The number of the name that the token is.
fn number_at(numbers: &[Option<usize>], at: usize) -> Option<usize>
    ensures { result ≡ held (slice_get numbers.now at) }
{
    *numbers.get(at)?
}

/// Sets the body of a macro, or none. Where what stands for another macro may change by that, all marks are taken back.
fn change(table: &mut Table, number: Option<usize>, body: Option<Span>)
    requires { table.old.marks.changes < usize.MAX }
    ensures changed { MatchOption number (table.new.bodies.items ≡ table.old.bodies.items) (λ n. n < length table.old.bodies.items → IsChanged table.old table.new n body) }
    ensures few { table.new.marks.changes ≤ table.old.marks.changes + 1 }
    ensures same_bodies { length table.new.bodies.items ≡ length table.old.bodies.items }
    ensures same_marks { length (marks_of table.new.marks) ≡ length (marks_of table.old.marks) }
{
    let Some(number) = number else {
        return;
    };
    if number >= table.bodies.len() {
        return;
    }
    if body.is_none() && table.bodies[number].is_none() {
        return;
    }
    table.bodies[number] = body;
    if table.marks.is_met(number) {
        table.marks.forget();
    }
}

/// Obeys the directive that begins there, and answers where the next line begins.
pub fn obey(
    alloc: Global,
    text: &[u8],
    tokens: &[Token],
    numbers: &[Option<usize>],
    at: usize,
    table: &mut Table,
) -> Result<usize, PpError>
    requires within { at < length tokens.now }
    requires few { table.old.marks.changes < usize.MAX }
    ensures further { IfOk result (λ end. (at < end) × (end ≤ length tokens.now)) }
    ensures few { table.new.marks.changes ≤ table.old.marks.changes + 1 }
    ensures same_bodies { length table.new.bodies.items ≡ length table.old.bodies.items }
    ensures same_marks { length (marks_of table.new.marks) ≡ length (marks_of table.old.marks) }
    ensures obeyed { (macros : Macros) (name : ℕ → Word) (hash : Piece) → slice_get tokens.now at ≡ Some hash → begins_directive hash ≡ true →
        IsSeen text.now macros name tokens.now numbers.now table.old.bodies.items →
        MatchResult result (λ end. IsObeyed text.now macros name tokens.now numbers.now table.old table.new at end)
        (λ e. (e ≡ PpError.Memory alloc_error) ⊎ ((room : ℕ) → HasPpFault text.now macros room (drop at tokens.now) e)) }
{
    let line = tokens[at].line;
    let end = at + 1 + line_len(tokens, at + 1);
    match read_line(alloc, text, &tokens[at + 1..end])? {
        Directive::Nothing => Ok(end),
        Directive::Define => {
            let body = Span { start: at + 3, end };
            change(table, number_at(numbers, at + 2), Some(body));
            Ok(end)
        }
        Directive::Undefine => {
            change(table, number_at(numbers, at + 2), None);
            Ok(end)
        }
        Directive::UnknownHeader => Err(PpError::UnknownHeader(line)),
        Directive::Unknown => Err(PpError::BadDirective(line)),
    }
}

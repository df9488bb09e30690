//! How many expression nodes and variables a function has. A count stands still once it is past what can be lowered, so
//! no tree is too large to be counted. The recursion goes down the tree, which nests as the text does.

ghost use Rattle.std.specs.Prelude.{◌≡◌, ◌+◌};
ghost use Rattle.c_tree.specs.Counts.{
  capped,
  nodes_of_conversion,
  nodes_of_place,
  nodes_of_value,
  nodes_of_values,
  nodes_of_optional,
  nodes_of_initial,
  nodes_of_initials,
  nodes_of_for_start,
  nodes_of_statement,
  nodes_of_statements,
  size_of_function,
};

use crate::limits::MAX_FUNCTION_SIZE;
use crate::operators::Written;
use crate::program::Function;
use crate::statements::{ForStart, Initial, Statement};
use crate::values::{Place, Value};

/// The first count that is too large.
pub(crate) const TOO_LARGE: usize = MAX_FUNCTION_SIZE + 1;

/// A count with more nodes.
fn with(count: usize, more: usize) -> usize
    ensures { result ≡ capped (count + more) }
{
    count.saturating_add(more).min(TOO_LARGE)
}

fn conversion_nodes(written: Written) -> usize
    ensures { result ≡ nodes_of_conversion written }
{
    match written {
        Written::Cast => 1,
        Written::Implicit => 0,
    }
}

/// A count with the nodes of a place.
#[cycle(values)]
#[tactic(auto, using(crate::proofs::Counting::place_nodes))]
fn with_place(count: usize, place: &Place) -> usize
    ensures { result ≡ capped (count + nodes_of_place place.now) }
{
    match place {
        Place::Variable(_, _) | Place::Global(_, _) | Place::Literal(_, _) => with(count, 1),
        Place::Dereference(_, pointer) | Place::Arrow(_, pointer, _) => {
            with_value(with(count, 1), pointer.get())
        }
        Place::Index(_, first, second) | Place::IndexFirst(_, first, second) => {
            with_value(with_value(with(count, 1), first.get()), second.get())
        }
        Place::Member(_, place, _) => with_place(with(count, 1), place.get()),
        Place::Element(_, place, _) => with_place(count, place.get()),
    }
}

/// A count with the nodes of a value.
#[cycle(values)]
#[tactic(auto, using(crate::proofs::Counting::value_nodes))]
fn with_value(count: usize, value: &Value) -> usize
    ensures { result ≡ capped (count + nodes_of_value value.now) }
{
    match value {
        Value::Number(_, _) | Value::Null(_) => with(count, 1),
        Value::Load(_, place) | Value::Decay(_, place) | Value::Mention(_, place) => {
            with_place(count, place.get())
        }
        Value::Address(_, place)
        | Value::Step(_, _, _, _, place)
        | Value::StepPointer(_, _, _, place) => with_place(with(count, 1), place.get()),
        Value::Convert(_, written, value)
        | Value::NullPointer(_, written, value)
        | Value::KeepPointer(_, written, value)
        | Value::CheckPointer(_, written, value) => {
            with_value(with(count, conversion_nodes(*written)), value.get())
        }
        Value::Discard(_, value)
        | Value::Unary(_, _, value)
        | Value::Not(_, value)
        | Value::Allocate(_, _, value)
        | Value::Allocated(_, value)
        | Value::Free(_, value)
        | Value::StringLength(_, value)
        | Value::PrintLine(_, value)
        | Value::PrintByte(_, value) => with_value(with(count, 1), value.get()),
        Value::Binary(_, _, first, second)
        | Value::Compare(_, _, first, second)
        | Value::ComparePointers(_, _, first, second)
        | Value::Advance(_, first, second)
        | Value::AdvanceFirst(_, first, second)
        | Value::Retreat(_, first, second)
        | Value::Difference(_, first, second)
        | Value::Logical(_, _, first, second)
        | Value::AllocateMany(_, _, first, second)
        | Value::FetchAdd(_, first, second) => {
            with_value(with_value(with(count, 1), first.get()), second.get())
        }
        Value::Conditional(_, first, second, third)
        | Value::CopyBytes(_, first, second, third)
        | Value::FillBytes(_, first, second, third) => {
            let most = with_value(with_value(with(count, 1), first.get()), second.get());
            with_value(most, third.get())
        }
        Value::Assign(_, place, value)
        | Value::Update(_, _, _, place, value)
        | Value::UpdatePointer(_, _, place, value) => {
            with_value(with_place(with(count, 1), place.get()), value.get())
        }
        Value::Copy(_, to, from) => with_place(with_place(with(count, 1), to.get()), from.get()),
        Value::Comma(_, values) | Value::Call(_, _, values) => {
            with_values(with(count, 1), values.as_slice())
        }
        Value::Print(_, _, arguments) => with_values(with(count, 2), arguments.as_slice()),
    }
}

/// A count with the nodes of several values.
#[cycle(values)]
fn with_values(count: usize, values: &[Value]) -> usize
    ensures { result ≡ capped (count + nodes_of_values values.now) }
{
    let mut total = with(count, 0);
    for value in values {
        total = with_value(total, value);
    }
    total
}

/// A count with the nodes of a value that may be left out.
fn with_optional(count: usize, value: &Option<Value>) -> usize
    ensures { result ≡ capped (count + nodes_of_optional value.now) }
{
    match value {
        None => with(count, 0),
        Some(value) => with_value(count, value),
    }
}

/// A count with the nodes of a store of an initialiser.
fn with_initial(count: usize, store: &Initial) -> usize
    ensures { result ≡ capped (count + nodes_of_initial store.now) }
{
    match store {
        Initial::Value(_, value) => with_value(count, value),
        Initial::Copy(_, from) => with_place(count, from),
        Initial::Bytes(_, _) => with(count, 1),
    }
}

/// A count with the nodes of an initialiser.
fn with_initials(count: usize, stores: &[Initial]) -> usize
    ensures { result ≡ capped (count + nodes_of_initials stores.now) }
{
    let mut total = with(count, 0);
    for store in stores {
        total = with_initial(total, store);
    }
    total
}

/// A count with the nodes of what a `for` does first.
fn with_for_start(count: usize, start: &ForStart) -> usize
    ensures { result ≡ capped (count + nodes_of_for_start start.now) }
{
    match start {
        ForStart::Nothing => with(count, 0),
        ForStart::Value(value) => with_value(count, value),
        ForStart::Declaration(_, _, stores) => with_initials(count, stores.as_slice()),
    }
}

/// A count with the nodes of a statement.
#[cycle(statements)]
#[tactic(auto, using(crate::proofs::Counting::statement_nodes))]
fn with_statement(count: usize, statement: &Statement) -> usize
    ensures { result ≡ capped (count + nodes_of_statement statement.now) }
{
    match statement {
        Statement::Empty(_)
        | Statement::Case(_, _)
        | Statement::Default(_)
        | Statement::Break(_)
        | Statement::Continue(_) => with(count, 0),
        Statement::Declaration(_, stores) => with_initials(count, stores.as_slice()),
        Statement::Block(block) => with_statements(count, block.items.as_slice()),
        Statement::Value(_, value) => with_value(count, value),
        Statement::If(_, test, body) | Statement::While(_, test, body) => {
            with_statement(with_value(count, test), body.get())
        }
        Statement::IfElse(_, test, then, otherwise) => {
            let most = with_statement(with_value(count, test), then.get());
            with_statement(most, otherwise.get())
        }
        Statement::Do(_, body, test) => with_value(with_statement(count, body.get()), test),
        Statement::For(_, start, test, step, body) => {
            let most = with_optional(with_for_start(count, start), test);
            with_statement(with_optional(most, step), body.get())
        }
        Statement::Switch(_, value, block) => {
            with_statements(with_value(count, value), block.items.as_slice())
        }
        Statement::Return(_, value) => with_optional(count, value),
    }
}

/// A count with the nodes of several statements.
#[cycle(statements)]
fn with_statements(count: usize, statements: &[Statement]) -> usize
    ensures { result ≡ capped (count + nodes_of_statements statements.now) }
{
    let mut total = with(count, 0);
    for statement in statements {
        total = with_statement(total, statement);
    }
    total
}

/// The expression nodes and variables of a function.
#[tactic(auto, using(crate::proofs::StatementEquations::block_nodes))]
pub(crate) fn size_of(function: &Function) -> usize
    ensures { result ≡ capped (size_of_function function.now) }
{
    with_statements(function.variables.len(), function.body.items.as_slice())
}

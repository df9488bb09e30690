//! Stores in an object, of which the type is known.

ghost use Rattle.std.specs.Prelude.{◌≡◌, reverse, IfOk, MatchResult};
ghost use Rattle.declaration_rules.specs.Stores as spec;
ghost use Rattle.initialiser_steps.specs.Objects as objects;
ghost use Rattle.initialiser_steps.specs.Seen.{stored_by};
ghost use Rattle.rule_answers.specs.Faults.{want_of_memory};

use crate::objects::InitialisedObject;
use crate::stored::StoredPart;
use crate::stores::Store;
use c_tree::{At, Initial, Place};
use c_types::TypeNo;
use declaration_rules::Step;
use rule_answers::out_of_memory;
use sqlite_items::{Boxed, Items};
use static_rules::CheckError;
use std::alloc::{AllocError, Global};

fn at(line: u32, kind: TypeNo) -> At
    ensures { result ≡ spec.at line kind }
{
    At { kind, line }
}

fn object_place(line: u32, kind: TypeNo, object: InitialisedObject) -> Place
    ensures { result ≡ objects.place_of line kind object }
{
    match object {
        InitialisedObject::Variable(number) => Place::Variable(at(line, kind), number),
        InitialisedObject::Global(number) => Place::Global(at(line, kind), number),
    }
}

fn place_behind(alloc: Global, line: u32, object: Place, step: Step) -> Result<Place, AllocError>
    ensures { IfOk result (λ place. place ≡ spec.place_behind line object step) }
{
    let object = Boxed::new(alloc, object)?;
    match step {
        Step::Member(kind, offset) => Ok(Place::Member(at(line, kind), object, offset)),
        Step::Element(kind, index) => Ok(Place::Element(at(line, kind), object, index)),
    }
}

/// The place to which a path leads from an object.
fn place_at(alloc: Global, line: u32, object: Place, path: &[Step]) -> Result<Place, AllocError>
    ensures { IfOk result (λ place. place ≡ spec.place_at line object path.now) }
{
    let mut place = object;
    for step in path {
        place = place_behind(alloc, line, place, *step)?;
    }
    Ok(place)
}

fn stored_at(place: Place, what: StoredPart) -> Initial
    ensures { result ≡ spec.stored_at place (stored_by what) }
{
    match what {
        StoredPart::Scalar(value) => Initial::Value(place, value),
        StoredPart::Copied(from) => Initial::Copy(place, from),
        StoredPart::Bytes(bytes) => Initial::Bytes(place, bytes),
    }
}

/// A store in an object of a type.
fn store_in(
    alloc: Global,
    line: u32,
    kind: TypeNo,
    object: InitialisedObject,
    store: Store,
) -> Result<Initial, AllocError>
    ensures { let place = spec.place_at line (objects.place_of line kind object) store.path in
        IfOk result (λ made. made ≡ spec.stored_at place store.what) }
{
    let (path, what) = store.into_parts();
    let place = place_at(
        alloc,
        line,
        object_place(line, kind, object),
        path.as_slice(),
    )?;
    Ok(stored_at(place, what))
}

/// The items in the other order.
fn reversed<T: Drop>(alloc: Global, mut items: Items<T>) -> Result<Items<T>, AllocError>
    ensures { IfOk result (λ other. other ≡ reverse items) }
{
    let mut other = Items::new(alloc);
    while let Some(item) = items.pop() {
        other.push(item)?;
    }
    Ok(other)
}

fn initials(
    alloc: Global,
    line: u32,
    kind: TypeNo,
    object: InitialisedObject,
    stores: Items<Store>,
) -> Result<Items<Initial>, AllocError>
    ensures { IfOk result (λ made. made ≡ spec.placed line (objects.place_of line kind object) stores) }
{
    let mut waiting = reversed(alloc, stores)?;
    let mut made = Items::new(alloc);
    while let Some(store) = waiting.pop() {
        let next = store_in(alloc, line, kind, object, store)?;
        made.push(next)?;
    }
    Ok(made)
}

/// The stores of an initialiser in an object of a type, each at the place to which its path leads, on the line of the
/// declaration. It takes linear time.
pub fn placed(
    alloc: Global,
    line: u32,
    kind: TypeNo,
    object: InitialisedObject,
    stores: Items<Store>,
) -> Result<Items<Initial>, CheckError>
    ensures { let all = spec.placed line (objects.place_of line kind object) stores in
        MatchResult result (λ made. made ≡ all) (λ e. e ≡ want_of_memory) }
{
    match initials(alloc, line, kind, object, stores) {
        Ok(made) => Ok(made),
        Err(_) => Err(out_of_memory()),
    }
}

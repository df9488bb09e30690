//! What fits in a part of an object without braces (C11 6.7.9p11, p13 and p14).

ghost use Rattle.std.specs.Prelude.{◌≡◌};
ghost use Rattle.declaration_rules.specs.Initialisers as spec;
ghost use Rattle.declaration_rules.specs.Stores.{then_found};
ghost use Rattle.initialiser_steps.specs.Adds.{Adds};

use crate::found::Found;
use crate::stored::StoredPart;
use c_types::TypeNo;
use declaration_rules::{Step, Unfit};
use operand_plans::{CHAR, UNSIGNED_CHAR};
use static_rules::{CheckError, Judged, Operand, Tree};
use std::alloc::Global;

/// Whether it is one of the character types, whose arrays take string literals.
pub fn is_character(kind: TypeNo) -> bool
    ensures { result ≡ spec.is_character kind }
{
    kind == CHAR || kind == UNSIGNED_CHAR
}

/// A scalar takes a value that was converted to its type, where it can be.
pub fn scalar(
    alloc: Global,
    found: &mut Found,
    path: &[Step],
    converted: Option<Operand>,
) -> Result<(), CheckError>
    ensures { Adds (spec.scalar path.now converted) result found.old found.new }
{
    match converted {
        Some(operand) => match found.add_store(alloc, path, StoredPart::Scalar(operand.value)) {
            Ok(()) => Ok(()),
            Err(error) => Err(error),
        },
        None => {
            found.add_unfit(Unfit::Mismatch);
            Ok(())
        }
    }
}

/// A struct or a union of one type takes an expression of the same, which is a place.
fn copied_from(
    alloc: Global,
    found: &mut Found,
    wrong: Unfit,
    path: &[Step],
    tree: Tree,
) -> Result<(), CheckError>
    ensures { Adds (spec.copied_from wrong path.now tree) result found.old found.new }
{
    match tree {
        Tree::Place(place) => match found.add_store(alloc, path, StoredPart::Copied(place)) {
            Ok(()) => Ok(()),
            Err(error) => Err(error),
        },
        Tree::Value(_) => {
            found.add_unfit(wrong);
            Ok(())
        }
    }
}

/// A struct or a union of a type takes a place of its own type. Other expressions are `wrong`.
pub fn copied(
    alloc: Global,
    found: &mut Found,
    wrong: Unfit,
    path: &[Step],
    kind: TypeNo,
    judged: Judged,
) -> Result<(), CheckError>
    ensures { Adds (spec.copied wrong path.now kind judged) result found.old found.new }
{
    if kind != judged.kind {
        found.add_unfit(wrong);
        return Ok(());
    }
    match copied_from(alloc, found, wrong, path, judged.tree) {
        Ok(()) => Ok(()),
        Err(error) => Err(error),
    }
}

fn array_from(wrong: Unfit, tree: &Tree) -> Unfit
    ensures { result ≡ spec.array_from wrong tree.now }
{
    match tree {
        Tree::Place(_) => Unfit::Mismatch,
        Tree::Value(_) => wrong,
    }
}

/// An array takes no expression but a string literal. One that is no array of its own type is `wrong`.
pub fn not_an_array(found: &mut Found, wrong: Unfit, kind: TypeNo, judged: &Judged)
    ensures { found.new ≡ then_found found.old (spec.not_an_array wrong kind judged.now) }
{
    let reason = if kind == judged.kind {
        array_from(wrong, &judged.tree)
    } else {
        wrong
    };
    found.add_unfit(reason);
}

//! `atomic_fetch_add` (C11 7.17.7.5).

ghost use Rattle.std.specs.Prelude.{◌≡◌, ℕ, IfOk};
ghost use Rattle.call_steps.specs.Adding as adding;
ghost use Rattle.rule_answers.specs.Gives.{Gives};
ghost use Rattle.static_rules.specs.Calls as spec;

use c_types::{TypeNo, TypeTable};
use operand_plans::{conversion, whole_target};
use rule_answers::{fault, out_of_memory};
use sqlite_items::Items;
use static_rules::{Change, CheckError, CheckKind, Operand, State, Where};
use std::alloc::{AllocError, Global};
use tree_building::{fetch_added, seen, two};

/// How a number is added to what a pointer points to.
#[derive(Clone, Copy)]
struct Addition {
    /// The type of the sum.
    kind: TypeNo,
    /// How the number becomes one of that type.
    how: Change,
}

/// How a number is added, nothing where the two do not fit.
#[tactic(auto, unfolding(crate::specs::Adding::how_added))]
fn how_added(types: &TypeTable, x: &Operand, y: &Operand) -> Option<Addition>
    ensures { result ≡ adding.how_added types.now x.now y.now }
{
    let kind = whole_target(types, x.kind)?;
    let how = conversion(types, kind, seen(y))?;
    Some(Addition { kind, how })
}

/// Whether an argument that has a parameter does not fit it.
#[tactic(auto, using(crate::proofs::Additions::misfits_of_two))]
fn misfits(types: &TypeTable, xs: &[Operand]) -> bool
    ensures { (line : ℕ) → result ≡ spec.fetch_add_misfits types.now line xs.now }
{
    match xs {
        [] => false,
        [x] => whole_target(types, x.kind).is_none(),
        [x, y, ..] => how_added(types, x, y).is_none(),
    }
}

/// The node of the sum, nothing where the two do not fit.
fn sum(
    alloc: Global,
    line: u32,
    x: Operand,
    y: Operand,
    found: Option<Addition>,
) -> Result<Option<Operand>, AllocError>
    ensures { IfOk result (λ made. made ≡ adding.sum_by line x y found) }
{
    match found {
        Some(found) => match fetch_added(alloc, line, found.kind, x, found.how, y) {
            Ok(made) => Ok(Some(made)),
            Err(error) => Err(error),
        },
        None => Ok(None),
    }
}

/// The node of two arguments.
#[tactic(auto, using(crate::proofs::Additions::sum_is))]
fn sum_of(
    alloc: Global,
    types: &TypeTable,
    line: u32,
    x: Operand,
    y: Operand,
) -> Result<Option<Operand>, AllocError>
    ensures { IfOk result (λ made. made ≡ spec.fetch_add_of types.now line x y (spec.whole_target types.now x.kind)) }
{
    let found = how_added(types, &x, &y);
    match sum(alloc, line, x, y, found) {
        Ok(made) => Ok(made),
        Err(error) => Err(error),
    }
}

/// The node, nothing where there are not two arguments that fit.
#[tactic(auto, using(crate::proofs::Additions::not_two))]
fn fetch_add_node(
    alloc: Global,
    types: &TypeTable,
    line: u32,
    xs: Items<Operand>,
) -> Result<Option<Operand>, AllocError>
    ensures { IfOk result (λ made. made ≡ spec.fetch_add_node types.now line xs) }
{
    match two(xs) {
        Some((x, y)) => sum_of(alloc, types, line, x, y),
        None => Ok(None),
    }
}

/// `atomic_fetch_add` with what was read of the arguments.
#[tactic(auto, unfolding(static_rules::specs::Calls::fetch_added))]
pub fn fetch_add(
    alloc: Global,
    state: &State,
    at: Where,
    here: u32,
    xs: Items<Operand>,
) -> Result<Operand, CheckError>
    ensures { Gives (spec.fetch_added at here state.now xs) result state.now }
{
    if at.constant || misfits(&state.types, xs.as_slice()) {
        return Err(fault(CheckKind::TypeMismatch, here));
    }
    match fetch_add_node(alloc, &state.types, at.line, xs) {
        Ok(Some(x)) => Ok(x),
        Ok(None) => Err(fault(CheckKind::BadCall, here)),
        Err(_) => Err(out_of_memory()),
    }
}

//! Labels (C11 6.8.1, 6.8.4.2): they stand directly in the block of a `switch`, and each value stands there once.

ghost use Rattle.std.specs.Prelude.{ℕ, Some};
ghost use Rattle.declaration_rules.specs.Statements as spec;
ghost use Rattle.declaration_rules.specs.declared.statements.Inside.{Inside as Around};
ghost use Rattle.rule_answers.specs.Gives.{Gives};
ghost use Rattle.statement_steps.specs.Cases.{GivesLabelled};
ghost use Rattle.static_rules.specs.declared.states.State.{State as Whole};

use crate::labels::Labels;
use c_tree::Statement;
use declaration_rules::Inside;
use operand_plans::wrapped;
use rule_answers::{fault, out_of_memory};
use static_rules::{CheckError, CheckKind, Feature};

/// A label that does not stand directly in the block of a `switch`, which is always refused.
pub fn misplaced_label(here: u32, around: Inside) -> Result<Statement, CheckError>
    ensures { (s : Whole) → Gives (spec.misplaced_label here around) result s }
{
    if around.in_switch {
        Err(fault(CheckKind::LeftOut(Feature::CaseInside), here))
    } else {
        Err(fault(CheckKind::TypeMismatch, here))
    }
}

/// A case of a value that is converted to the type of the `switch`.
fn converted_case(labels: &mut Labels, here: u32, value: i128) -> Result<Statement, CheckError>
    ensures { (s : Whole) → GivesLabelled (spec.case_of here labels.old value s) result labels.new s }
{
    if labels.has_case(value) {
        return Err(fault(CheckKind::Redefined, here));
    }
    match labels.add_case(value) {
        Ok(()) => Ok(Statement::Case(here, value)),
        Err(_) => Err(out_of_memory()),
    }
}

/// `case value:` on a line, whose value was found.
pub fn case_label(
    labels: &mut Labels,
    here: u32,
    around: Inside,
    value: i128,
) -> Result<Statement, CheckError>
    ensures { (s : Whole) →
        GivesLabelled (spec.case_by here around labels.old around.directly (value, s)) result labels.new s }
{
    match around.directly {
        Some(kind) => converted_case(labels, here, wrapped(kind, value)),
        None => misplaced_label(here, around),
    }
}

/// The only `default` of a `switch`.
fn first_default(labels: &mut Labels, here: u32) -> Result<Statement, CheckError>
    ensures { (s : Whole) (around : Around) (kind : ℕ) →
        GivesLabelled (spec.default_by here around labels.old s (Some kind)) result labels.new s }
{
    if labels.has_default() {
        return Err(fault(CheckKind::Redefined, here));
    }
    labels.add_default();
    Ok(Statement::Default(here))
}

/// `default:` on a line.
pub fn default_label(
    labels: &mut Labels,
    here: u32,
    around: Inside,
) -> Result<Statement, CheckError>
    ensures { (s : Whole) →
        GivesLabelled (spec.default_by here around labels.old s around.directly) result labels.new s }
{
    match around.directly {
        Some(_) => first_default(labels, here),
        None => misplaced_label(here, around),
    }
}

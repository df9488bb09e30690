//! What does not fit, and braces (C11 6.7.9p16).

ghost use Rattle.std.specs.Prelude.{◌≡◌};
ghost use Rattle.declaration_rules.specs.Initialisers as initialisers;
ghost use Rattle.declaration_rules.specs.Stores as spec;

use declaration_rules::Unfit;
use static_rules::{CheckKind, Feature};

/// Of two causes at one node, which is told: the mismatch.
fn told_of(one: Unfit, other: Option<Unfit>) -> Unfit
    ensures { result ≡ spec.told_of one other }
{
    match (one, other) {
        (Unfit::Mismatch, _) | (Unfit::Elided, Some(Unfit::Mismatch)) => Unfit::Mismatch,
        (Unfit::Elided, Some(Unfit::Elided) | None) => Unfit::Elided,
    }
}

pub(crate) fn first_told(one: Option<Unfit>, other: Option<Unfit>) -> Option<Unfit>
    ensures { result ≡ spec.first_told one other }
{
    match one {
        None => other,
        Some(one) => Some(told_of(one, other)),
    }
}

/// What a fault is called of a part that does not fit.
pub(crate) fn kind_of_unfit(reason: Unfit) -> CheckKind
    ensures { result ≡ initialisers.kind_of_unfit reason }
{
    match reason {
        Unfit::Mismatch => CheckKind::TypeMismatch,
        Unfit::Elided => CheckKind::LeftOut(Feature::BraceElision),
    }
}

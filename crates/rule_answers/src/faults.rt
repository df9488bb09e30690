//! Faults of a text, and want of memory.

ghost use Rattle.std.specs.Prelude.{◌≡◌};
ghost use Rattle.rule_answers.specs.Faults as spec;

use c_types::TypeError;
use static_rules::{CheckError, CheckKind};
use std::alloc::AllocError;

pub fn fault(kind: CheckKind, line: u32) -> CheckError
    ensures { result ≡ record { kind = kind; line = line } }
{
    CheckError { kind, line }
}

pub fn out_of_memory() -> CheckError
    ensures { result ≡ spec.want_of_memory }
{
    CheckError {
        kind: CheckKind::Memory(AllocError),
        line: 0,
    }
}

/// Why a type is refused that a token of this line begins.
pub fn refused(here: u32, reason: TypeError) -> CheckError
    ensures { result ≡ spec.refused here reason }
{
    match reason {
        TypeError::Memory(_) => out_of_memory(),
        TypeError::Incomplete => fault(CheckKind::BadType(TypeError::Incomplete), here),
        TypeError::Empty => fault(CheckKind::BadType(TypeError::Empty), here),
        TypeError::BadFlexible => fault(CheckKind::BadType(TypeError::BadFlexible), here),
        TypeError::TooLarge => fault(CheckKind::BadType(TypeError::TooLarge), here),
        TypeError::Duplicate => fault(CheckKind::BadType(TypeError::Duplicate), here),
    }
}

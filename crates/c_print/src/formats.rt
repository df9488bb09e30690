//! From a format to its parts.

ghost use Rattle.std.specs.Prelude.{◌≡◌, List, Ok, IfOk, IfErr};
ghost use Rattle.c_print.specs.Built.{IsReadError};
ghost use Rattle.c_print.specs.Formats.{Parts, AreOnly, IsRefusal};
ghost use Rattle.c_print.specs.Machine.{reading};
ghost use Rattle.c_print.specs.declared.machine.State.TheVariants.{Outside};

use crate::built::Built;
use crate::error::FormatError;
use crate::machine::{State, effect_of};
use crate::parts::Part;
use std::alloc::Global;

/// Goes through the bytes once.
fn read(alloc: Global, format: &[u8]) -> Result<Vec<Part>, FormatError>
    ensures parts { IfOk result (λ parts. reading Outside format.now ≡ Ok parts.items) }
    ensures bad { IfErr result (IsReadError format.now) }
{
    let mut built = Built::new(alloc);
    let mut state = State::Outside;
    for (at, byte) in format.iter().enumerate() {
        match built.advance(alloc, effect_of(state, *byte))? {
            Some(next) => state = next,
            None => return Err(FormatError::BadFormat(at)),
        }
    }
    match state {
        State::Outside => Ok(built.finish(alloc)?),
        _ => Err(FormatError::BadFormat(format.len())),
    }
}

/// The parts of a format of printf (C11 7.21.6.1) in order, where neighbouring plain bytes are one part, or how many of
/// its bytes begin some format. The work grows with the length of the format.
pub fn parts_of(alloc: Global, format: &[u8]) -> Result<Vec<Part>, FormatError>
    ensures found { IfOk result (λ parts. Parts format.now parts.items) }
    ensures only { IfOk result (λ parts. AreOnly format.now parts.items) }
    ensures refused { IfErr result (IsRefusal format.now) }
{
    read(alloc, format)
}

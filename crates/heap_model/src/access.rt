//! How many bytes an access has, and which number they give.

ghost use Rattle.std.specs.Prelude.{◌≡◌, ◌+◌, ◌-◌, ◌*◌, ◌%◌, ◌^◌, ◌<◌, ◌≤◌, nat_le, if◌then◌else◌};
ghost use Rattle.heap_model.specs.Cells as spec;
ghost use Rattle.heap_model.specs.Cells.{width};

use crate::calls::AccessKind;

/// How many bytes an access reads or writes.
pub fn width_of(kind: AccessKind) -> u64
    ensures { result ≡ width kind }
{
    match kind {
        AccessKind::I8 | AccessKind::U8 => 1,
        AccessKind::I16 | AccessKind::U16 => 2,
        AccessKind::I32 | AccessKind::U32 => 4,
        AccessKind::I64 | AccessKind::U64 | AccessKind::Ptr | AccessKind::Word => 8,
    }
}

/// The number in the low bytes that an access has.
pub fn low_bytes(kind: AccessKind, bits: u64) -> u64
    ensures value { result ≡ bits % 2 ^ (8 * width kind) }
    ensures below { result < 2 ^ (8 * width kind) }
{
    match kind {
        AccessKind::I8 | AccessKind::U8 => bits % (1 << 8),
        AccessKind::I16 | AccessKind::U16 => bits % (1 << 16),
        AccessKind::I32 | AccessKind::U32 => bits % (1 << 32),
        AccessKind::I64 | AccessKind::U64 | AccessKind::Ptr | AccessKind::Word => bits,
    }
}

/// A number of twice as many values as its sign bit counts, with that bit in each higher place.
fn extend_sign(number: u64, sign: u64) -> u64
    requires number { number < 2 * sign }
    requires sign { sign ≤ 2 ^ 63 }
    ensures { result ≡ (if nat_le (2 * sign) (2 * number) then number + 2 ^ 64 - 2 * sign else number) }
{
    if number >= sign {
        number + (u64::MAX - sign - (sign - 1))
    } else {
        number
    }
}

/// What a load gives of the number in its bytes: sign-extended to 64 bits for a signed kind (C11 6.3.1.3).
#[tactic(auto, unfolding(crate::specs::Cells::sign_extension))]
pub fn sign_extension(kind: AccessKind, number: u64) -> u64
    requires { number < 2 ^ (8 * width kind) }
    ensures { result ≡ spec.sign_extension kind number }
{
    match kind {
        AccessKind::I8 => extend_sign(number, 1 << 7),
        AccessKind::I16 => extend_sign(number, 1 << 15),
        AccessKind::I32 => extend_sign(number, 1 << 31),
        _ => number,
    }
}

//! Little-endian numbers among bytes (C11 6.2.6.1).

ghost use Rattle.std.specs.Prelude.{◌≡◌, ◌+◌, ◌*◌, ◌%◌, ◌^◌, ◌<◌, ◌≤◌, ◌⊎◌, ℕ, length, slice_index};
ghost use Rattle.slot_store.specs.Cells.{IsWidth};
ghost use Rattle.slot_store.specs.Numbers.{AreBytes, number_at};

/// What every byte keeps.
#[inline]
pub(crate) fn law_bytes(bytes: &[u8])
    ensures { AreBytes bytes.now }
{}

/// The number that so many bytes hold, from a place on.
#[inline]
pub(crate) fn read_number(bytes: &[u8], at: usize, width: u32) -> u64
    requires width { IsWidth width }
    requires inside { at + width ≤ length bytes.now }
    ensures { result ≡ number_at bytes.now at width }
{
    // Two comparisons for each width.
    if width < 4 {
        if width == 1 {
            u64::from(bytes[at])
        } else {
            u64::from(u16::from_le_bytes([bytes[at], bytes[at + 1]]))
        }
    } else if width == 4 {
        u64::from(u32::from_le_bytes([bytes[at], bytes[at + 1], bytes[at + 2], bytes[at + 3]]))
    } else {
        u64::from_le_bytes([
            bytes[at],
            bytes[at + 1],
            bytes[at + 2],
            bytes[at + 3],
            bytes[at + 4],
            bytes[at + 5],
            bytes[at + 6],
            bytes[at + 7],
        ])
    }
}

/// Writes so many low bytes of a number, from a place on.
#[inline]
pub(crate) fn write_number(bytes: &mut [u8], at: usize, width: u32, number: u64)
    requires width { IsWidth width }
    requires inside { at + width ≤ length bytes.old }
    ensures here { number_at bytes.new at width ≡ number % 2 ^ (8 * width) }
    ensures elsewhere { (k : ℕ) → (k < at) ⊎ (at + width ≤ k) → slice_index bytes.new k ≡ slice_index bytes.old k }
{
    if width < 4 {
        if width == 1 {
            bytes[at] = (number % 0x100) as u8;
        } else {
            bytes[at..at + 2].copy_from_slice(&((number % 0x1_0000) as u16).to_le_bytes());
        }
    } else if width == 4 {
        bytes[at..at + 4].copy_from_slice(&((number % 0x1_0000_0000) as u32).to_le_bytes());
    } else {
        bytes[at..at + 8].copy_from_slice(&number.to_le_bytes());
    }
}

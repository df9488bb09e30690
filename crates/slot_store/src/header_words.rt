//! The two words in which a header stands.

ghost use Rattle.std.specs.Prelude.{◌≡◌, ◌<◌, ◌++◌, map, length};
ghost use Rattle.std.specs.Int.{to_le_bytes, w64};
ghost use Rattle.slot_headers.specs.Headers.{header_version_bound};
ghost use Rattle.slot_headers.specs.Cells.{Byte};
ghost use Rattle.slot_store.specs.Cells.{value_cells, header_cells};

use slot_headers::{Header, Value};

/// The bytes of two words, the lowest of each first.
#[inline]
pub(crate) fn bytes_of_words(first: u64, second: u64) -> [u8; 16]
    ensures { result ≡ to_le_bytes w64 first ++ to_le_bytes w64 second }
{
    let mut bytes = [0; 16];
    bytes[0..8].copy_from_slice(&first.to_le_bytes());
    bytes[8..16].copy_from_slice(&second.to_le_bytes());
    bytes
}

/// Eight bytes, the lowest first, as a plain word.
#[inline]
fn plain_word(bytes: &[u8]) -> Value
    requires { length bytes.now ≡ 8 }
    ensures { value_cells result ≡ map Byte bytes.now }
{
    let bits = u64::from_le_bytes([
        bytes[0], bytes[1], bytes[2], bytes[3], bytes[4], bytes[5], bytes[6], bytes[7],
    ]);
    Value {
        bits,
        pointer: false,
    }
}

/// The words of a header.
#[inline]
pub(crate) fn words_of(header: &Header) -> (Value, Value)
    requires { header.now.version < header_version_bound }
    ensures { value_cells result.0 ++ value_cells result.1 ≡ header_cells header.now }
{
    let mut bytes = [0; 16];
    header.put(&mut bytes);
    (plain_word(&bytes[0..8]), plain_word(&bytes[8..16]))
}

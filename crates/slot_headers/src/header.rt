//! The 16 bytes before an object's first byte.

ghost use Rattle.std.specs.Prelude.{◌≡◌, ◌<◌, length};
ghost use Rattle.slot_headers.specs.Headers.{HeadersLaw, ReadLaw, bytes_of, header_bytes, header_of, header_version_bound, version_word};

/// What marks the version of an object that is fixed.
const FIXED: u32 = 1 << 31;

/// The header of an object: the number of its type, which is 0 of a freed one; its version; whether it belongs to a variable
/// or a string literal; and its size in bytes.
#[derive(Clone, Copy, Debug, PartialEq, Eq)]
pub struct Header {
    pub kind: u32,
    pub version: u32,
    pub fixed: bool,
    pub size: u64,
}

/// A header has the bytes of no other.
pub fn law_headers()
    ensures { HeadersLaw }
{}

/// What is read of a header's bytes is that header.
pub fn law_read()
    ensures { ReadLaw }
{}

impl Header {
    /// How many bytes a header has.
    pub const BYTES: u64 = 16;

    /// The version with the mark of a fixed object.
    fn version_word(&self) -> u32
        requires { self.now.version < header_version_bound }
        ensures { result ≡ version_word self.now }
    {
        if self.fixed {
            self.version + FIXED
        } else {
            self.version
        }
    }

    /// Writes the bytes, the lowest of each number first.
    pub fn put(&self, to: &mut [u8])
        requires room { length to.old ≡ header_bytes }
        requires version { self.now.version < header_version_bound }
        ensures { to.new ≡ bytes_of self.now }
    {
        to[0..4].copy_from_slice(&self.kind.to_le_bytes());
        to[4..8].copy_from_slice(&self.version_word().to_le_bytes());
        to[8..16].copy_from_slice(&self.size.to_le_bytes());
    }

    /// Reads the bytes.
    pub fn get(from: &[u8]) -> Header
        requires { length from.now ≡ header_bytes }
        ensures value { result ≡ header_of from.now }
        ensures bytes { bytes_of result ≡ from.now }
        ensures version { result.version < header_version_bound }
    {
        let version = u32::from_le_bytes([from[4], from[5], from[6], from[7]]);
        Header {
            kind: u32::from_le_bytes([from[0], from[1], from[2], from[3]]),
            version: version % FIXED,
            fixed: version >= FIXED,
            size: u64::from_le_bytes([
                from[8], from[9], from[10], from[11], from[12], from[13], from[14], from[15],
            ]),
        }
    }
}

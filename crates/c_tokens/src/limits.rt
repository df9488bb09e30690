//! How large a text may be.

/// The longest text that is read, in bytes.
pub const MAX_SOURCE_BYTES: usize = 1_048_576;

/// The most tokens that a text may have, before macros are replaced and after.
pub const MAX_TOKENS: usize = 200_000;

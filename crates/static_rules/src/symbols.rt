//! The functions that each text has.

/// A function that each text has and none declares (C11 7.17.7.5, 7.21.6.3, 7.21.7.8, 7.21.7.9, 7.22.3, 7.24).
#[derive(Clone, Copy, Debug, PartialEq, Eq)]
pub enum BuiltIn {
    Malloc,
    Calloc,
    Free,
    Memcpy,
    Memset,
    Strlen,
    Printf,
    Puts,
    Putchar,
    AtomicFetchAdd,
}

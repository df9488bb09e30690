//! How large a tree may be.

/// The most statements, expressions, declarators, lists of members and initialisers in braces that may stand within one another.
pub const MAX_DEPTH: u32 = 200;

/// The most nodes that a tree may have.
pub const MAX_NODES: usize = 2_000_000;

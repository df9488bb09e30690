//! What a declaration introduces.

/// A declarator of a declaration: its name, by number, and the line of its first token.
#[derive(Clone, Copy, Debug, PartialEq, Eq)]
pub struct Introduced {
    pub name: u32,
    pub here: u32,
}

//! How large a program may be.

/// The most expression nodes and variables of a function that can be lowered.
pub const MAX_FUNCTION_SIZE: usize = 65_535;

/// The most parameters of a function.
pub const MAX_PARAMETERS: u32 = 16;

/// The most bytes of the globals that have an initialiser and of the string literals that make objects, together.
pub const MAX_INITIALISED_BYTES: u64 = 1_048_576;

/// The most nodes of a program.
pub const MAX_NODES: usize = 20_000_000;

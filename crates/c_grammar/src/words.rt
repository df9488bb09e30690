//! Places, and the words and marks that a node can have.

/// The number of a node's first token, counted from 0, and the line that it stands on.
#[derive(Clone, Copy, Debug, PartialEq, Eq)]
pub struct Place {
    pub token: u32,
    pub line: u32,
}

/// The words of C11 6.7.1.
#[derive(Clone, Copy, Debug, PartialEq, Eq)]
pub enum Storage {
    Typedef,
    Extern,
    Static,
    Register,
    Auto,
}

/// The words of C11 6.7.3 and 6.7.4, which are read and have no effect. After a `*` there is no `inline`.
#[derive(Clone, Copy, Debug, PartialEq, Eq)]
pub enum Qualifier {
    Const,
    Restrict,
    Inline,
}

/// The words of which the basic types are spelled (C11 6.7.2).
#[derive(Clone, Copy, Debug, PartialEq, Eq)]
pub enum BasicWord {
    Void,
    Char,
    Short,
    Int,
    Long,
    Signed,
    Unsigned,
}

/// What a list of basic words spells (C11 6.7.2): `long long` is `long`, and `char` is signed.
#[derive(Clone, Copy, Debug, PartialEq, Eq)]
pub enum BasicType {
    Void,
    Char,
    UnsignedChar,
    Short,
    UnsignedShort,
    Int,
    UnsignedInt,
    Long,
    UnsignedLong,
}

/// C11 6.7.2.1.
#[derive(Clone, Copy, Debug, PartialEq, Eq)]
pub enum Aggregate {
    Struct,
    Union,
}

/// The operators between two operands that group to the left, the loosest first (C11 6.5.5 to 6.5.14).
#[derive(Clone, Copy, Debug, PartialEq, Eq)]
pub enum Binary {
    LogicalOr,
    LogicalAnd,
    Or,
    ExclusiveOr,
    And,
    Equal,
    NotEqual,
    Less,
    Greater,
    LessEqual,
    GreaterEqual,
    ShiftLeft,
    ShiftRight,
    Add,
    Subtract,
    Multiply,
    Divide,
    Remainder,
}

/// The assignments of C11 6.5.16: `=`, and those with an operator, as `+=`.
#[derive(Clone, Copy, Debug, PartialEq, Eq)]
pub enum Assignment {
    Plain,
    Multiply,
    Divide,
    Remainder,
    Add,
    Subtract,
    ShiftLeft,
    ShiftRight,
    And,
    ExclusiveOr,
    Or,
}

/// The operators before their operand (C11 6.5.3): `++`, `--`, `&`, `*`, `+`, `-`, `~`, `!`.
#[derive(Clone, Copy, Debug, PartialEq, Eq)]
pub enum Prefix {
    Increment,
    Decrement,
    Address,
    Dereference,
    Plus,
    Minus,
    Complement,
    Not,
}

/// The operators after their operand (C11 6.5.2.4): `++` and `--`.
#[derive(Clone, Copy, Debug, PartialEq, Eq)]
pub enum Postfix {
    Increment,
    Decrement,
}

/// How a member is selected (C11 6.5.2.3): `.` of a struct or union, `->` of what a pointer points to.
#[derive(Clone, Copy, Debug, PartialEq, Eq)]
pub enum Selection {
    Direct,
    ThroughPointer,
}

/// What a declared name is (C11 6.2.1, 6.7.8).
#[derive(Clone, Copy, Debug, PartialEq, Eq)]
pub enum NameKind {
    /// A type, declared by `typedef`.
    Type,
    /// An object, a function or an enumeration constant.
    Ordinary,
}

/// Whether a declarator has a name (C11 6.7.6, 6.7.7).
#[derive(Clone, Copy, Debug, PartialEq, Eq)]
pub enum Naming {
    /// It has one: it declares an object, a function, a type or a member.
    Named,
    /// It has one or leaves it out: it is a parameter's.
    NamedOrNot,
    /// It has none: it belongs to the name of a type.
    NotNamed,
}

/// The kinds of expressions, the loosest first, by the names that C11 6.5 gives to their productions.
#[derive(Clone, Copy, Debug, PartialEq, Eq)]
pub enum Level {
    /// With commas: any expression.
    Comma,
    Assignment,
    Conditional,
    LogicalOr,
    LogicalAnd,
    Or,
    ExclusiveOr,
    And,
    Equality,
    Relational,
    Shift,
    Additive,
    Multiplicative,
    Cast,
    Unary,
    Postfix,
    Primary,
}

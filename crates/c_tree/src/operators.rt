//! Operators of the typed tree.

/// The operators whose operands and result have one type of whole numbers (C11 6.5.5, 6.5.6, 6.5.10 to 6.5.12), and the
/// shifts (6.5.7), whose result has the type of the left operand.
#[derive(Clone, Copy, Debug, PartialEq, Eq)]
pub enum Operator {
    Multiply,
    Divide,
    Remainder,
    Add,
    Subtract,
    ShiftLeft,
    ShiftRight,
    And,
    ExclusiveOr,
    Or,
}

/// C11 6.5.8 and 6.5.9.
#[derive(Clone, Copy, Debug, PartialEq, Eq)]
pub enum Comparison {
    Equal,
    NotEqual,
    Less,
    Greater,
    LessEqual,
    GreaterEqual,
}

/// C11 6.5.13 and 6.5.14.
#[derive(Clone, Copy, Debug, PartialEq, Eq)]
pub enum LogicalOperator {
    And,
    Or,
}

/// `+`, `-` and `~` before a whole number (C11 6.5.3.3).
#[derive(Clone, Copy, Debug, PartialEq, Eq)]
pub enum UnaryOperator {
    Plus,
    Minus,
    Complement,
}

/// Whether a place goes up or down: `++` and `+=`, or `--` and `-=`.
#[derive(Clone, Copy, Debug, PartialEq, Eq)]
pub enum Step {
    Increment,
    Decrement,
}

/// Where `++` or `--` stands: before its operand it gives the new value (C11 6.5.3.1), behind it the old one (C11
/// 6.5.2.4).
#[derive(Clone, Copy, Debug, PartialEq, Eq)]
pub enum Fixity {
    Prefix,
    Postfix,
}

/// Whether a conversion is written as a cast (C11 6.5.4). One that is implicit is no expression of the text.
#[derive(Clone, Copy, Debug, PartialEq, Eq)]
pub enum Written {
    Cast,
    Implicit,
}

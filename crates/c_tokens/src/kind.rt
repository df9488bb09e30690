//! The kinds of tokens, after C11 6.4.

ghost use Rattle.std.specs.Prelude.{◌≡◌, ◌↔◌, true};
ghost use Rattle.c_tokens.specs.Same as spec;
ghost use Rattle.c_tokens.specs.declared.kind.Kind.{Kind as Sort};

/// The keywords of C11 6.4.1.
#[derive(Clone, Copy, Debug, PartialEq, Eq)]
pub enum Keyword {
    Auto,
    Break,
    Case,
    Char,
    Const,
    Continue,
    Default,
    Do,
    Double,
    Else,
    Enum,
    Extern,
    Float,
    For,
    Goto,
    If,
    Inline,
    Int,
    Long,
    Register,
    Restrict,
    Return,
    Short,
    Signed,
    Sizeof,
    Static,
    Struct,
    Switch,
    Typedef,
    Union,
    Unsigned,
    Void,
    Volatile,
    While,
    Alignas,
    Alignof,
    Atomic,
    Bool,
    Complex,
    Generic,
    Imaginary,
    Noreturn,
    StaticAssert,
    ThreadLocal,
}

/// The punctuators of C11 6.4.6 but for its other spellings by digraphs.
#[derive(Clone, Copy, Debug, PartialEq, Eq)]
pub enum Mark {
    LeftBracket,
    RightBracket,
    LeftParen,
    RightParen,
    LeftBrace,
    RightBrace,
    Dot,
    Arrow,
    PlusPlus,
    MinusMinus,
    And,
    Star,
    Plus,
    Minus,
    Tilde,
    Not,
    Slash,
    Percent,
    ShiftLeft,
    ShiftRight,
    Less,
    Greater,
    LessEqual,
    GreaterEqual,
    EqualEqual,
    NotEqual,
    Caret,
    Or,
    AndAnd,
    OrOr,
    Question,
    Colon,
    Semicolon,
    Ellipsis,
    Equal,
    StarEqual,
    SlashEqual,
    PercentEqual,
    PlusEqual,
    MinusEqual,
    ShiftLeftEqual,
    ShiftRightEqual,
    AndEqual,
    CaretEqual,
    OrEqual,
    Comma,
    Hash,
    HashHash,
}

/// The type of a whole-number constant by C11 6.4.4.1, over `int` of 32 bits and `long` of 64.
#[derive(Clone, Copy, Debug, PartialEq, Eq)]
pub enum NumType {
    Int,
    UInt,
    Long,
    ULong,
}

/// What a token is. A number has its value and its type, a character constant its value as an `int`: one byte, read as
/// a `signed char` (C11 6.4.4.4p10).
#[derive(Clone, Copy, Debug, PartialEq, Eq)]
pub enum Kind {
    Name,
    Word(Keyword),
    Number(u64, NumType),
    Char(i32),
    Str,
    Mark(Mark),
}

/// Whether two kinds are one.
#[tactic(auto, unfolding(crate::specs::Same::same_kind))]
pub fn same_kind(a: Kind, b: Kind) -> bool
    ensures { result ≡ spec.same_kind a b }
{
    match (a, b) {
        (Kind::Name, Kind::Name) | (Kind::Str, Kind::Str) => true,
        (Kind::Word(x), Kind::Word(y)) => x == y,
        (Kind::Number(m, x), Kind::Number(n, y)) => m == n && x == y,
        (Kind::Char(x), Kind::Char(y)) => x == y,
        (Kind::Mark(x), Kind::Mark(y)) => x == y,
        _ => false,
    }
}

/// The test tells equal kinds, and no others.
pub fn law_kinds()
    ensures { (a b : Sort) → (spec.same_kind a b ≡ true) ↔ (a ≡ b) }
{}

//! How keywords and punctuators are spelled: the two tables that the definitions and the lexer share.

ghost use Rattle.std.specs.Prelude.{◌≡◌, count_by};
ghost use Rattle.c_tokens.specs.declared.kind.Keyword.{Keyword as Word};
ghost use Rattle.c_tokens.specs.declared.kind.Mark.{Mark as Punctuator};
ghost use Rattle.c_tokens.specs.Words.{keywords, marks, is_of_keyword, is_of_mark};

use crate::kind::{Keyword, Mark};

/// The keywords of C11 6.4.1, each with its spelling.
pub const KEYWORDS: [(Keyword, &[u8]); 44] = [
    (Keyword::Auto, b"auto"),
    (Keyword::Break, b"break"),
    (Keyword::Case, b"case"),
    (Keyword::Char, b"char"),
    (Keyword::Const, b"const"),
    (Keyword::Continue, b"continue"),
    (Keyword::Default, b"default"),
    (Keyword::Do, b"do"),
    (Keyword::Double, b"double"),
    (Keyword::Else, b"else"),
    (Keyword::Enum, b"enum"),
    (Keyword::Extern, b"extern"),
    (Keyword::Float, b"float"),
    (Keyword::For, b"for"),
    (Keyword::Goto, b"goto"),
    (Keyword::If, b"if"),
    (Keyword::Inline, b"inline"),
    (Keyword::Int, b"int"),
    (Keyword::Long, b"long"),
    (Keyword::Register, b"register"),
    (Keyword::Restrict, b"restrict"),
    (Keyword::Return, b"return"),
    (Keyword::Short, b"short"),
    (Keyword::Signed, b"signed"),
    (Keyword::Sizeof, b"sizeof"),
    (Keyword::Static, b"static"),
    (Keyword::Struct, b"struct"),
    (Keyword::Switch, b"switch"),
    (Keyword::Typedef, b"typedef"),
    (Keyword::Union, b"union"),
    (Keyword::Unsigned, b"unsigned"),
    (Keyword::Void, b"void"),
    (Keyword::Volatile, b"volatile"),
    (Keyword::While, b"while"),
    (Keyword::Alignas, b"_Alignas"),
    (Keyword::Alignof, b"_Alignof"),
    (Keyword::Atomic, b"_Atomic"),
    (Keyword::Bool, b"_Bool"),
    (Keyword::Complex, b"_Complex"),
    (Keyword::Generic, b"_Generic"),
    (Keyword::Imaginary, b"_Imaginary"),
    (Keyword::Noreturn, b"_Noreturn"),
    (Keyword::StaticAssert, b"_Static_assert"),
    (Keyword::ThreadLocal, b"_Thread_local"),
];

/// The punctuators of C11 6.4.6 but for digraphs, each with its spelling; a longer one stands before those that it begins with.
pub const MARKS: [(Mark, &[u8]); 48] = [
    (Mark::Ellipsis, b"..."),
    (Mark::ShiftLeftEqual, b"<<="),
    (Mark::ShiftRightEqual, b">>="),
    (Mark::Arrow, b"->"),
    (Mark::PlusPlus, b"++"),
    (Mark::MinusMinus, b"--"),
    (Mark::ShiftLeft, b"<<"),
    (Mark::ShiftRight, b">>"),
    (Mark::LessEqual, b"<="),
    (Mark::GreaterEqual, b">="),
    (Mark::EqualEqual, b"=="),
    (Mark::NotEqual, b"!="),
    (Mark::AndAnd, b"&&"),
    (Mark::OrOr, b"||"),
    (Mark::StarEqual, b"*="),
    (Mark::SlashEqual, b"/="),
    (Mark::PercentEqual, b"%="),
    (Mark::PlusEqual, b"+="),
    (Mark::MinusEqual, b"-="),
    (Mark::AndEqual, b"&="),
    (Mark::CaretEqual, b"^="),
    (Mark::OrEqual, b"|="),
    (Mark::HashHash, b"##"),
    (Mark::LeftBracket, b"["),
    (Mark::RightBracket, b"]"),
    (Mark::LeftParen, b"("),
    (Mark::RightParen, b")"),
    (Mark::LeftBrace, b"{"),
    (Mark::RightBrace, b"}"),
    (Mark::Dot, b"."),
    (Mark::And, b"&"),
    (Mark::Star, b"*"),
    (Mark::Plus, b"+"),
    (Mark::Minus, b"-"),
    (Mark::Tilde, b"~"),
    (Mark::Not, b"!"),
    (Mark::Slash, b"/"),
    (Mark::Percent, b"%"),
    (Mark::Less, b"<"),
    (Mark::Greater, b">"),
    (Mark::Caret, b"^"),
    (Mark::Or, b"|"),
    (Mark::Question, b"?"),
    (Mark::Colon, b":"),
    (Mark::Semicolon, b";"),
    (Mark::Equal, b"="),
    (Mark::Comma, b","),
    (Mark::Hash, b"#"),
];

/// Each keyword and each mark has one entry.
pub fn law_words()
    ensures keywords { (word : Word) → count_by (is_of_keyword word) keywords ≡ 1 }
    ensures marks { (mark : Punctuator) → count_by (is_of_mark mark) marks ≡ 1 }
{}

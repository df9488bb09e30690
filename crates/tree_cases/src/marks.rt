//! How operators and words are written (C11 6.5 and 6.7), for the text of a tree.

use c_grammar::{
    Aggregate, Assignment, BasicWord, Binary, Postfix, Prefix, Qualifier, Selection, Storage,
};
use c_tokens::NumType;

pub fn binary(operator: Binary) -> &'static str {
    match operator {
        Binary::LogicalOr => "||",
        Binary::LogicalAnd => "&&",
        Binary::Or => "|",
        Binary::ExclusiveOr => "^",
        Binary::And => "&",
        Binary::Equal => "==",
        Binary::NotEqual => "!=",
        Binary::Less => "<",
        Binary::Greater => ">",
        Binary::LessEqual => "<=",
        Binary::GreaterEqual => ">=",
        Binary::ShiftLeft => "<<",
        Binary::ShiftRight => ">>",
        Binary::Add => "+",
        Binary::Subtract => "-",
        Binary::Multiply => "*",
        Binary::Divide => "/",
        Binary::Remainder => "%",
    }
}

pub fn assignment(operator: Assignment) -> &'static str {
    match operator {
        Assignment::Plain => "=",
        Assignment::Multiply => "*=",
        Assignment::Divide => "/=",
        Assignment::Remainder => "%=",
        Assignment::Add => "+=",
        Assignment::Subtract => "-=",
        Assignment::ShiftLeft => "<<=",
        Assignment::ShiftRight => ">>=",
        Assignment::And => "&=",
        Assignment::ExclusiveOr => "^=",
        Assignment::Or => "|=",
    }
}

pub fn prefix(operator: Prefix) -> &'static str {
    match operator {
        Prefix::Increment => "++",
        Prefix::Decrement => "--",
        Prefix::Address => "&",
        Prefix::Dereference => "*",
        Prefix::Plus => "+",
        Prefix::Minus => "-",
        Prefix::Complement => "~",
        Prefix::Not => "!",
    }
}

/// With a word, so that it differs from the operator before an operand.
pub fn postfix(operator: Postfix) -> &'static str {
    match operator {
        Postfix::Increment => "post++",
        Postfix::Decrement => "post--",
    }
}

pub fn selection(how: Selection) -> &'static str {
    match how {
        Selection::Direct => ".",
        Selection::ThroughPointer => "->",
    }
}

/// What stands after the digits of a constant of this type.
pub fn suffix(kind: NumType) -> &'static str {
    match kind {
        NumType::Int => "",
        NumType::UInt => "u",
        NumType::Long => "l",
        NumType::ULong => "ul",
    }
}

pub fn storage(word: Storage) -> &'static str {
    match word {
        Storage::Typedef => "typedef",
        Storage::Extern => "extern",
        Storage::Static => "static",
        Storage::Register => "register",
        Storage::Auto => "auto",
    }
}

pub fn qualifier(word: Qualifier) -> &'static str {
    match word {
        Qualifier::Const => "const",
        Qualifier::Restrict => "restrict",
        Qualifier::Inline => "inline",
    }
}

pub fn basic(word: BasicWord) -> &'static str {
    match word {
        BasicWord::Void => "void",
        BasicWord::Char => "char",
        BasicWord::Short => "short",
        BasicWord::Int => "int",
        BasicWord::Long => "long",
        BasicWord::Signed => "signed",
        BasicWord::Unsigned => "unsigned",
    }
}

pub fn aggregate(word: Aggregate) -> &'static str {
    match word {
        Aggregate::Struct => "struct",
        Aggregate::Union => "union",
    }
}

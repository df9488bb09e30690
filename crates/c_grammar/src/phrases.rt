//! Expressions, and what declares: specifiers and declarators. They lead to one another, since a cast has the name of a
//! type, and a declarator the size of an array. A node says by which token a name is spelled, not how.

use crate::words::{
    Aggregate, Assignment, BasicWord, Binary, Place, Postfix, Prefix, Qualifier, Selection, Storage,
};
use c_tokens::NumType;
use sqlite_items::{Boxed, Items};

/// An expression (C11 6.5), with the place of its first token, which is that of its left operand where it begins with one.
#[cycle(phrases)]
#[derive(Debug, Drop)]
pub enum Expression {
    /// A name that is no type where it stands.
    Name(Place),
    /// The value and the type of a constant (C11 6.4.4.1).
    Number(Place, u64, NumType),
    /// A character constant, whose type is `int`.
    Character(Place, i32),
    /// String literals one after another (C11 6.4.5): the tokens from its place up to this number, not with it.
    Strings(Place, u32),
    /// `(inner)`
    Parentheses(Place, Boxed<Expression>),
    /// `array[index]`
    Index(Place, Boxed<Expression>, Boxed<Expression>),
    /// `function(arguments)`
    Call(Place, Boxed<Expression>, Items<Expression>),
    /// `operand.name` or `operand->name`, with the number of the member's token.
    Select(Place, Selection, Boxed<Expression>, u32),
    /// `operand++` or `operand--`
    Postfix(Place, Postfix, Boxed<Expression>),
    /// An operator before its operand, as `-operand`.
    Prefix(Place, Prefix, Boxed<Expression>),
    /// `sizeof operand`
    SizeOf(Place, Boxed<Expression>),
    /// `sizeof (type)`
    SizeOfType(Place, Boxed<TypePhrase>),
    /// `(type)operand`
    Cast(Place, Boxed<TypePhrase>, Boxed<Expression>),
    /// An operator between two operands, as `left + right`.
    Binary(Place, Binary, Boxed<Expression>, Boxed<Expression>),
    /// `test ? then : otherwise`
    Conditional(Place, Boxed<Expression>, Boxed<Expression>, Boxed<Expression>),
    /// `left = right`, or with an operator, as `left += right`.
    Assign(Place, Assignment, Boxed<Expression>, Boxed<Expression>),
    /// `first, second, ..`: two parts at least.
    Comma(Place, Items<Expression>),
}

/// The name of a type (C11 6.7.7): its declarator has no name.
#[cycle(phrases)]
#[derive(Debug, Drop)]
pub struct TypePhrase {
    pub place: Place,
    pub specs: Specs,
    pub declarator: Declarator,
}

/// Declaration specifiers (C11 6.7), in the order in which they stand. They hold exactly one type.
#[cycle(phrases)]
#[derive(Debug, Drop)]
pub struct Specs {
    pub place: Place,
    pub words: Items<Specifier>,
}

/// One declaration specifier (C11 6.7.1 to 6.7.4).
#[cycle(phrases)]
#[derive(Debug, Drop)]
pub enum Specifier {
    Storage(Place, Storage),
    Qualifier(Place, Qualifier),
    /// One of the words of which basic types are spelled.
    Basic(Place, BasicWord),
    /// `struct NAME { members }`, or without a name: with the number of the name's token.
    Members(Place, Aggregate, Option<u32>, Items<Member>),
    /// `struct NAME`, with the number of the name's token.
    Tag(Place, Aggregate, u32),
    /// `enum NAME { enumerators }`, or without a name: with the number of the name's token.
    Enumerators(Place, Option<u32>, Items<Enumerator>),
    /// `enum NAME`, with the number of the name's token.
    EnumTag(Place, u32),
    /// A name that is a type where it stands.
    TypedefName(Place),
}

/// The declaration of members of a struct or union (C11 6.7.2.1): one declarator at least.
#[cycle(phrases)]
#[derive(Debug, Drop)]
pub struct Member {
    pub place: Place,
    pub specs: Specs,
    pub declarators: Items<Declarator>,
}

/// An enumeration constant, which is the token at its place, and its value where it has one (C11 6.7.2.2).
#[cycle(phrases)]
#[derive(Debug, Drop)]
pub struct Enumerator {
    pub place: Place,
    pub value: Option<Boxed<Expression>>,
}

/// A declarator as it is written (C11 6.7.6 and 6.7.7): what stands outside is read last.
#[cycle(phrases)]
#[derive(Debug, Drop)]
pub enum Declarator {
    /// The name that is declared.
    Name(Place),
    /// The name that is left out in the name of a type, or of a parameter: it has no token, and so no place.
    Unnamed,
    /// `*` with the qualifiers after it, before a declarator.
    Pointer(Place, Items<Qualifier>, Boxed<Declarator>),
    /// `(inner)`
    Parentheses(Place, Boxed<Declarator>),
    /// `element[size]`, or without a size.
    Array(Place, Boxed<Declarator>, Option<Boxed<Expression>>),
    /// `result(parameters)`; `()` and `(void)` have none.
    Function(Place, Boxed<Declarator>, Items<Parameter>),
}

/// A parameter (C11 6.7.6.3), with or without a name.
#[cycle(phrases)]
#[derive(Debug, Drop)]
pub struct Parameter {
    pub place: Place,
    pub specs: Specs,
    pub declarator: Declarator,
}

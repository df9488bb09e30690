//! Expressions: values, and the places of objects, which lead to one another.

use crate::operators::{
    Comparison, Fixity, LogicalOperator, Operator, Step, UnaryOperator, Written,
};
use c_print::Part;
use c_types::TypeNo;
use sqlite_items::{Boxed, Items};

/// The static type of a node, and the line of the first token of the innermost statement or declaration in which it
/// stands.
#[derive(Clone, Copy, Debug, PartialEq, Eq)]
pub struct At {
    pub kind: TypeNo,
    pub line: u32,
}

/// Where an object stands (C11 6.3.2.1p1); `At` has the object's type. Offsets are in bytes.
#[cycle(values)]
#[derive(Drop)]
pub enum Place {
    /// A variable or parameter of the function (C11 6.5.1p2): its number there. The function's list tells registers
    /// from objects.
    Variable(At, u32),
    /// An object of file scope (C11 6.5.1p2): its number by first declaration.
    Global(At, u32),
    /// A string literal that makes an object (C11 6.4.5p6): its number among the literals of the program.
    Literal(At, u32),
    /// `*pointer` (C11 6.5.3.2p4)
    Dereference(At, Boxed<Value>),
    /// `pointer[index]` (C11 6.5.2.1)
    Index(At, Boxed<Value>, Boxed<Value>),
    /// `index[pointer]`, where the index is evaluated first (C11 6.5.2.1)
    IndexFirst(At, Boxed<Value>, Boxed<Value>),
    /// `place.member` (C11 6.5.2.3p3): the member's offset.
    Member(At, Boxed<Place>, u32),
    /// `pointer->member` (C11 6.5.2.3p4): the member's offset.
    Arrow(At, Boxed<Value>, u32),
    /// An element of an array that is initialised (C11 6.7.9p17): how many stand before it. No text writes it.
    Element(At, Boxed<Place>, u32),
}

/// What an expression gives (C11 6.5); `At` has the type of what is given.
#[cycle(values)]
#[derive(Drop)]
pub enum Value {
    // ---- constants
    /// A number, a character (C11 6.4.4), an enumeration constant (6.7.2.2p3), or what `sizeof` gives (6.5.3.4).
    Number(At, i128),
    /// `NULL`, of type `void *` (C11 7.19p3).
    Null(At),
    // ---- of places
    /// The value of a scalar place (C11 6.3.2.1p2), which no text writes.
    Load(At, Boxed<Place>),
    /// The address of an array's first element (C11 6.3.2.1p3), which no text writes.
    Decay(At, Boxed<Place>),
    /// `&place` (C11 6.5.3.2p3)
    Address(At, Boxed<Place>),
    /// A struct or a union that nothing reads (C11 6.3.2.2): its place alone is evaluated.
    Mention(At, Boxed<Place>),
    // ---- conversions
    /// Between whole numbers (C11 6.3.1.1 to 6.3.1.8); a narrower type keeps the low bits.
    Convert(At, Written, Boxed<Value>),
    /// A null pointer constant as a pointer of this type (C11 6.3.2.3p3): its operand has no effect and is not
    /// evaluated.
    NullPointer(At, Written, Boxed<Value>),
    /// A pointer as `void *` (C11 6.3.2.3p1): it stays as it is, and takes no turn.
    KeepPointer(At, Written, Boxed<Value>),
    /// A pointer as one to another target, which is not void (C11 6.3.2.3p1 and p7): it is checked, and takes a turn.
    CheckPointer(At, Written, Boxed<Value>),
    /// `(void)value` (C11 6.3.2.2)
    Discard(At, Boxed<Value>),
    // ---- whole numbers
    /// `+value`, `-value` and `~value` (C11 6.5.3.3) of a promoted number.
    Unary(At, UnaryOperator, Boxed<Value>),
    /// Two numbers of one type, or two promoted ones at a shift (C11 6.5.5 to 6.5.7, 6.5.10 to 6.5.12).
    Binary(At, Operator, Boxed<Value>, Boxed<Value>),
    /// Two numbers of one type (C11 6.5.8, 6.5.9).
    Compare(At, Comparison, Boxed<Value>, Boxed<Value>),
    // ---- pointers
    /// Two pointers of one type (C11 6.5.8, 6.5.9).
    ComparePointers(At, Comparison, Boxed<Value>, Boxed<Value>),
    /// `pointer + index` (C11 6.5.6p8)
    Advance(At, Boxed<Value>, Boxed<Value>),
    /// `index + pointer`, where the index is evaluated first (C11 6.5.6p8)
    AdvanceFirst(At, Boxed<Value>, Boxed<Value>),
    /// `pointer - index` (C11 6.5.6p8)
    Retreat(At, Boxed<Value>, Boxed<Value>),
    /// `pointer - pointer` of one type (C11 6.5.6p9)
    Difference(At, Boxed<Value>, Boxed<Value>),
    // ---- tests
    /// `!value` of a number or a pointer (C11 6.5.3.3p5)
    Not(At, Boxed<Value>),
    /// `left && right` and `left || right` of numbers or pointers (C11 6.5.13, 6.5.14)
    Logical(At, LogicalOperator, Boxed<Value>, Boxed<Value>),
    /// `test ? then : otherwise`, of which both have the type of the whole (C11 6.5.15)
    Conditional(At, Boxed<Value>, Boxed<Value>, Boxed<Value>),
    /// `first, .., last`: two at least (C11 6.5.17)
    Comma(At, Items<Value>),
    // ---- assignments
    /// `place = value` of a scalar (C11 6.5.16.1)
    Assign(At, Boxed<Place>, Boxed<Value>),
    /// A struct or a union from a place of its own type (C11 6.5.16.1p1): the place that changes, and the one that is
    /// read.
    Copy(At, Boxed<Place>, Boxed<Place>),
    /// `place op= value` of whole numbers, computed in the type that is given (C11 6.5.16.2). The value has been
    /// converted to that type, or promoted where the operator is a shift.
    Update(At, Operator, TypeNo, Boxed<Place>, Boxed<Value>),
    /// `place += index` or `place -= index` of a pointer (C11 6.5.16.2p1)
    UpdatePointer(At, Step, Boxed<Place>, Boxed<Value>),
    /// `++` or `--` of a whole number, computed in the type that is given (C11 6.5.2.4, 6.5.3.1)
    Step(At, Step, Fixity, TypeNo, Boxed<Place>),
    /// `++` or `--` of a pointer (C11 6.5.2.4, 6.5.3.1)
    StepPointer(At, Step, Fixity, Boxed<Place>),
    // ---- calls
    /// A call of a function of the program by its number, with arguments of its parameters' types (C11 6.5.2.2).
    Call(At, u32, Items<Value>),
    /// `malloc(size)`: the type of the elements (C11 7.22.3.4). Where the call is converted at once, its type is that
    /// pointer type, and an implicit conversion is no node.
    Allocate(At, TypeNo, Boxed<Value>),
    /// `calloc(count, size)`: the type of the elements (C11 7.22.3.2), as for `malloc`.
    AllocateMany(At, TypeNo, Boxed<Value>, Boxed<Value>),
    /// Such a call that a cast converts at once (C11 6.5.4); it is not checked and takes no turn.
    Allocated(At, Boxed<Value>),
    /// `free(pointer)` (C11 7.22.3.3)
    Free(At, Boxed<Value>),
    /// `memcpy(to, from, size)` (C11 7.24.2.1)
    CopyBytes(At, Boxed<Value>, Boxed<Value>, Boxed<Value>),
    /// `memset(to, byte, size)` (C11 7.24.6.1)
    FillBytes(At, Boxed<Value>, Boxed<Value>, Boxed<Value>),
    /// `strlen(text)` (C11 7.24.6.3)
    StringLength(At, Boxed<Value>),
    /// `puts(text)` (C11 7.21.7.9)
    PrintLine(At, Boxed<Value>),
    /// `putchar(byte)` (C11 7.21.7.8)
    PrintByte(At, Boxed<Value>),
    /// `atomic_fetch_add(pointer, value)` (C11 7.17.7.5)
    FetchAdd(At, Boxed<Value>, Boxed<Value>),
    /// `printf(format, ..)` (C11 7.21.6.3): the parts of the format, and the promoted arguments of its conversions, in
    /// order.
    Print(At, Items<Part>, Items<Value>),
}

//! The values of expressions.

ghost use Rattle.std.specs.Prelude.{◌≡◌, OnOk};
ghost use Rattle.plain_meaning.specs.declared.scalar.Scalar.TheVariants.{Pointer};
ghost use Rattle.plain_meaning.specs.Meaning as meaning;
ghost use Rattle.tree_walk.specs.Steps.{Leads, Keeps, itself, test_of};

use crate::operators::{is_true, operate};
use crate::pointers::{shift, size_of};
use crate::stop::Stop;
use crate::walk::Walk;
use plain_meaning::{CheckedPointer, Expression, Pointer as NamedPointer};

impl<'a> Walk<'a> {
    /// The value of an expression of a statement on this line. It goes as deep as expressions nest, which the parser bounds.
    #[cycle(values)]
    pub(crate) fn value(&mut self, line: u32, expression: &Expression) -> Result<i32, Stop>
        ensures leads { Leads self.old (meaning.expression line expression.now self.old.variables.items) itself result self.new }
        ensures kept { OnOk result (Keeps self.old self.new) }
    {
        match expression {
            Expression::Variable(variable) => Ok(self.number(*variable)),
            Expression::Number(number) => Ok(*number),
            Expression::Binary(operator, left, right) => {
                let a = self.value(line, left.get())?;
                let b = self.value(line, right.get())?;
                Ok(operate(*operator, a, b))
            }
            Expression::Element(pointer, index) => {
                let lvalue = self.element(line, *pointer, index.get())?;
                let value = self.load(line, pointer.target, lvalue)?;
                Ok(value)
            }
        }
    }

    /// Whether a test holds (C11 6.8.4.1, 6.8.5).
    pub(crate) fn holds(&mut self, line: u32, test: &Expression) -> Result<bool, Stop>
        ensures leads { Leads self.old (test_of line test.now self.old.variables.items) itself result self.new }
        ensures kept { OnOk result (Keeps self.old self.new) }
    {
        let value = self.value(line, test)?;
        Ok(is_true(value))
    }

    /// The lvalue `NAME[index]`: first the pointer, then the index.
    #[cycle(values)]
    pub(crate) fn element(
        &mut self,
        line: u32,
        pointer: NamedPointer,
        index: &Expression,
    ) -> Result<CheckedPointer, Stop>
        ensures leads { Leads self.old (meaning.element line pointer (meaning.expression line index.now) self.old.variables.items) Pointer result self.new }
        ensures kept { OnOk result (Keeps self.old self.new) }
    {
        let base = self.pointer(pointer.variable);
        let count = self.value(line, index)?;
        Ok(shift(base, count, size_of(pointer.target)))
    }
}

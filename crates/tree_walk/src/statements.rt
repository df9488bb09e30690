//! What statements do.

ghost use Rattle.std.specs.Prelude.{◌≡◌, ℕ, ◌≤◌, map, OnOk};
ghost use Rattle.plain_meaning.specs.declared.tree.Statement.TheVariants as s;
ghost use Rattle.tree_walk.specs.Steps.{Walks, Fewer};

use crate::pointers::NULL;
use crate::stop::Stop;
use crate::walk::Walk;
use plain_meaning::{Expression, Pointer as NamedPointer, Scalar, Statement, Target};
use std::alloc::Global;

impl<'a> Walk<'a> {
    /// It goes as deep as statements nest, which the parser bounds.
    #[cycle(walk)]
    pub(crate) fn statement(&mut self, alloc: Global, statement: &Statement) -> Result<(), Stop>
        ensures walks { Walks self.old statement.now result self.new }
        ensures fewer { OnOk result (Fewer self.old self.new) }
    {
        match statement {
            Statement::Block(all) => self.block(alloc, all.as_slice()),
            Statement::Declaration(line, value) => self.declare(*line, value),
            Statement::Allocation(line, target, size) => self.declare_object(*line, *target, *size),
            Statement::PointerDeclaration(line, target, source) => {
                self.declare_pointer(*line, *target, *source)
            }
            Statement::Assignment(line, variable, value) => self.assign(*line, *variable, value),
            Statement::PointerAssignment(line, pointer, source) => {
                self.assign_pointer(*line, *pointer, *source)
            }
            Statement::ElementAssignment(line, pointer, index, value) => {
                self.assign_element(*line, *pointer, index, value)
            }
            Statement::Free(line, pointer) => self.free(*line, *pointer),
            Statement::If(line, test, then) => {
                let holds = self.holds(*line, test)?;
                if holds {
                    return self.statement(alloc, then.get());
                }
                Ok(())
            }
            Statement::IfElse(line, test, then, otherwise) => {
                let holds = self.holds(*line, test)?;
                if holds {
                    return self.statement(alloc, then.get());
                }
                self.statement(alloc, otherwise.get())
            }
            Statement::While(line, test, body) => self.repeat(alloc, *line, body.get(), test),
            Statement::Print(line, value) => self.print(alloc, *line, value),
        }
    }

    /// At its end the variables of the block go out of scope.
    #[cycle(walk)]
    fn block(&mut self, alloc: Global, all: &[Statement]) -> Result<(), Stop>
        ensures walks { Walks self.old (s.Block all.now) result self.new }
        ensures fewer { OnOk result (Fewer self.old self.new) }
    {
        let outside = self.variables.len();
        for statement in all {
            self.statement(alloc, statement)?;
        }
        self.variables.truncate(outside);
        Ok(())
    }

    /// A loop takes a turn before each of its tests.
    #[cycle(walk)]
    fn repeat(
        &mut self,
        alloc: Global,
        line: u32,
        body: &Statement,
        test: &Expression,
    ) -> Result<(), Stop>
        ensures walks { Walks self.old (s.While line test.now body.now) result self.new }
        ensures fewer { OnOk result (Fewer self.old self.new) }
    {
        loop {
            self.turn(line)?;
            let holds = self.holds(line, test)?;
            if !holds {
                return Ok(());
            }
            self.statement(alloc, body)?;
        }
    }

    /// A new variable is zero while its first value is evaluated.
    fn declare(&mut self, line: u32, value: &Expression) -> Result<(), Stop>
        ensures walks { Walks self.old (s.Declaration line value.now) result self.new }
        ensures fewer { OnOk result (Fewer self.old self.new) }
    {
        let variable = self.variables.len();
        self.push(Scalar::Number(0))?;
        let value = self.value(line, value)?;
        self.set(variable, Scalar::Number(value));
        Ok(())
    }

    fn declare_object(&mut self, line: u32, target: Target, size: u32) -> Result<(), Stop>
        ensures walks { Walks self.old (s.Allocation line target size) result self.new }
        ensures fewer { OnOk result (Fewer self.old self.new) }
    {
        let pointer = self.allocate(line, target, size)?;
        self.push(Scalar::Pointer(pointer))?;
        Ok(())
    }

    /// A new variable is null while the pointer is converted.
    fn declare_pointer(
        &mut self,
        line: u32,
        target: Target,
        source: NamedPointer,
    ) -> Result<(), Stop>
        ensures walks { Walks self.old (s.PointerDeclaration line target source) result self.new }
        ensures fewer { OnOk result (Fewer self.old self.new) }
    {
        let variable = self.variables.len();
        self.push(Scalar::Pointer(NULL))?;
        let pointer = self.cast(line, target, self.pointer(source.variable))?;
        self.set(variable, Scalar::Pointer(pointer));
        Ok(())
    }

    fn assign(&mut self, line: u32, variable: usize, value: &Expression) -> Result<(), Stop>
        ensures walks { Walks self.old (s.Assignment line variable value.now) result self.new }
        ensures fewer { OnOk result (Fewer self.old self.new) }
    {
        let value = self.value(line, value)?;
        self.set(variable, Scalar::Number(value));
        Ok(())
    }

    fn assign_pointer(
        &mut self,
        line: u32,
        pointer: NamedPointer,
        source: NamedPointer,
    ) -> Result<(), Stop>
        ensures walks { Walks self.old (s.PointerAssignment line pointer source) result self.new }
        ensures fewer { OnOk result (Fewer self.old self.new) }
    {
        let converted = self.cast(line, pointer.target, self.pointer(source.variable))?;
        self.set(pointer.variable, Scalar::Pointer(converted));
        Ok(())
    }

    fn assign_element(
        &mut self,
        line: u32,
        pointer: NamedPointer,
        index: &Expression,
        value: &Expression,
    ) -> Result<(), Stop>
        ensures walks { Walks self.old (s.ElementAssignment line pointer index.now value.now) result self.new }
        ensures fewer { OnOk result (Fewer self.old self.new) }
    {
        let lvalue = self.element(line, pointer, index)?;
        let value = self.value(line, value)?;
        self.store(line, pointer.target, lvalue, value)?;
        Ok(())
    }

    fn free(&mut self, line: u32, pointer: NamedPointer) -> Result<(), Stop>
        ensures walks { Walks self.old (s.Free line pointer) result self.new }
        ensures fewer { OnOk result (Fewer self.old self.new) }
    {
        self.release(line, self.pointer(pointer.variable))?;
        Ok(())
    }

    fn print(&mut self, alloc: Global, line: u32, value: &Expression) -> Result<(), Stop>
        ensures walks { Walks self.old (s.Print line value.now) result self.new }
        ensures fewer { OnOk result (Fewer self.old self.new) }
    {
        let value = self.value(line, value)?;
        self.print_line(alloc, value)?;
        Ok(())
    }
}

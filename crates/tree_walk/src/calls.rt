//! What a program does with pointers by calls on the heap.

ghost use Rattle.std.specs.Prelude.{◌≡◌, OnOk};
ghost use Rattle.std.specs.Int.{w32, w64, cast_signed, cast_unsigned};
ghost use Rattle.plain_meaning.specs.declared.scalar.Scalar.TheVariants.{Number, Pointer};
ghost use Rattle.plain_meaning.specs.Tree.{Point, Turn, Convert, Load, Store, Free, Pass};
ghost use Rattle.plain_meaning.specs.Points.{number_of};
ghost use Rattle.plain_meaning.specs.Values as values;
ghost use Rattle.plain_meaning.specs.Meaning as meaning;
ghost use Rattle.tree_walk.specs.Steps.{Leads, Keeps, no_value, itself};

use crate::pointers::{NULL, is_null, kind_of, may_escape, new_pointer, slot_bounds, type_of};
use crate::reports::{Subject, escape};
use crate::stop::Stop;
use crate::walk::Walk;
use heap_model::{Call, Reply, Value};
use lowfat_regions::MAX_OBJECT_BYTES;
use plain_meaning::{CheckedPointer, Ending, Target};

impl<'a> Walk<'a> {
    /// `malloc(size)` of an object of a type.
    pub(crate) fn allocate(
        &mut self,
        line: u32,
        target: Target,
        size: u32,
    ) -> Result<CheckedPointer, Stop>
        ensures leads { Leads self.old (meaning.allocation line target size) Pointer result self.new }
        ensures kept { OnOk result (Keeps self.old self.new) }
    {
        if u64::from(size) > MAX_OBJECT_BYTES {
            return Ok(NULL);
        }
        self.turn(line)?;
        let call = Call::Alloc {
            elem: type_of(target),
            size: size as u64,
            fixed: false,
        };
        let subject = Subject::of(line, &NULL);
        match self.ask(&call, &subject)? {
            Reply::Placed(word) => Ok(new_pointer(word, size)),
            _ => Ok(NULL),
        }
    }

    /// `(T *)pointer`: a turn, the test, and the check for the type, unless the pointer is null.
    pub(crate) fn cast(
        &mut self,
        line: u32,
        target: Target,
        pointer: CheckedPointer,
    ) -> Result<CheckedPointer, Stop>
        ensures leads { Leads self.old (λ next. Turn line (Point line (Convert (values.type_of target)) (Pointer pointer) values.zero_of next)) Pointer result self.new }
        ensures kept { OnOk result (Keeps self.old self.new) }
    {
        self.turn(line)?;
        if !may_escape(&pointer) {
            return Err(Stop::Ended(Ending::Reported(escape(line, &pointer))));
        }
        if is_null(&pointer) {
            return Ok(pointer);
        }
        let call = Call::Check {
            p: pointer.word,
            want: type_of(target),
        };
        let subject = Subject {
            line,
            word: pointer.word,
            reach: slot_bounds(pointer.word),
            want: type_of(target),
        };
        match self.ask(&call, &subject)? {
            Reply::Found(reach) => Ok(CheckedPointer {
                word: pointer.word,
                reach,
            }),
            _ => unreachable!(),
        }
    }

    /// Reads an element.
    pub(crate) fn load(
        &mut self,
        line: u32,
        target: Target,
        lvalue: CheckedPointer,
    ) -> Result<i32, Stop>
        ensures leads { Leads self.old (λ next. meaning.heap_call line (Load (values.kind_of target)) (Pointer lvalue) values.zero_of (λ v. next (values.conversion w32 (number_of v)))) itself result self.new }
        ensures kept { OnOk result (Keeps self.old self.new) }
    {
        self.turn(line)?;
        let call = Call::Load {
            p: lvalue.word,
            reach: lvalue.reach,
            kind: kind_of(target),
        };
        let subject = Subject::of(line, &lvalue);
        match self.ask(&call, &subject)? {
            Reply::Value(value) => Ok(int_of(value.bits)),
            _ => unreachable!(),
        }
    }

    /// Writes an element.
    pub(crate) fn store(
        &mut self,
        line: u32,
        target: Target,
        lvalue: CheckedPointer,
        value: i32,
    ) -> Result<(), Stop>
        ensures leads { Leads self.old (λ next. meaning.heap_call line (Store (values.kind_of target)) (Pointer lvalue) (Number (values.conversion (values.width_of target) value)) (λ done. next tt)) no_value result self.new }
        ensures kept { OnOk result (Keeps self.old self.new) }
    {
        self.turn(line)?;
        let call = Call::Store {
            p: lvalue.word,
            reach: lvalue.reach,
            kind: kind_of(target),
            value: Value {
                bits: bits_of(target, value),
                pointer: false,
            },
        };
        let subject = Subject::of(line, &lvalue);
        self.ask(&call, &subject)?;
        Ok(())
    }

    /// `free(pointer)`, which leaves null alone.
    pub(crate) fn release(&mut self, line: u32, pointer: CheckedPointer) -> Result<(), Stop>
        ensures leads { Leads self.old (λ next. meaning.release line (Pointer pointer) (next tt)) no_value result self.new }
        ensures kept { OnOk result (Keeps self.old self.new) }
    {
        if !may_escape(&pointer) {
            return Err(Stop::Ended(Ending::Reported(escape(line, &pointer))));
        }
        if is_null(&pointer) {
            return Ok(());
        }
        self.turn(line)?;
        let call = Call::Free {
            p: pointer.word,
            fixed: false,
        };
        let subject = Subject {
            line,
            word: pointer.word,
            reach: slot_bounds(pointer.word),
            want: 0,
        };
        self.ask(&call, &subject)?;
        Ok(())
    }
}

/// The number of these bits as an `int`: the low bits are kept (C11 6.3.1.3).
fn int_of(bits: u64) -> i32
    ensures { result ≡ values.conversion w32 (cast_signed w64 bits) }
{
    ((bits % (1 << 32)) as u32).cast_signed()
}

/// A number as one of the type that is pointed to, as 64 bits.
fn bits_of(target: Target, value: i32) -> u64
    ensures { result ≡ cast_unsigned w64 (values.conversion (values.width_of target) value) }
{
    match target {
        Target::Int => i64::from(value).cast_unsigned(),
        Target::Char => {
            let low = (i64::from(value).cast_unsigned() % 256) as u8;
            i64::from(low.cast_signed()).cast_unsigned()
        }
    }
}

//! The parts of a format as they are found.

ghost use Rattle.std.specs.Prelude.{◌≡◌, [], ◌∷◌, ◌++◌, IfOk, OnOk};

use crate::machine::{Effect, State};
use crate::parts::Part;
use byte_texts::Text;
use std::alloc::{AllocError, Global};
use std::mem;

/// The parts so far, and the plain bytes after them that are no part yet.
#[derive(Drop)]
pub struct Built {
    parts: Vec<Part>,
    plain: Text,
}

impl Built {
    ghost use Rattle.c_print.specs.Built.{part_of, Gains, Advances};

    pub fn new(alloc: Global) -> Built
        ensures parts { result.parts.items ≡ [] }
        ensures plain { result.plain ≡ [] }
    {
        Built {
            parts: Vec::new(alloc),
            plain: Text::new(alloc),
        }
    }

    fn flush(&mut self, alloc: Global) -> Result<(), AllocError>
        ensures parts { OnOk result (self.new.parts.items ≡ self.old.parts.items ++ part_of self.old.plain) }
        ensures plain { OnOk result (self.new.plain ≡ []) }
    {
        if self.plain.bytes().is_empty() {
            return Ok(());
        }
        let plain = mem::replace(&mut self.plain, Text::new(alloc));
        self.parts.push(Part::Plain(plain))?;
        Ok(())
    }

    fn push(&mut self, alloc: Global, part: Part) -> Result<(), AllocError>
        ensures { OnOk result (Gains self.old self.new part) }
    {
        self.flush(alloc)?;
        self.parts.push(part)?;
        Ok(())
    }

    /// Adds what an effect adds, and answers the next state, if no byte was wrong.
    pub fn advance(&mut self, alloc: Global, effect: Effect) -> Result<Option<State>, AllocError>
        ensures { IfOk result (Advances self.old self.new effect) }
    {
        match effect {
            Effect::Wrong => return Ok(None),
            Effect::Goes(state) => return Ok(Some(state)),
            Effect::Plain(byte) => self.plain.push(byte)?,
            Effect::Number {
                letter,
                flag,
                width,
                long,
            } => self.push(
                alloc,
                Part::Number {
                    letter,
                    flag,
                    width,
                    long,
                },
            )?,
            Effect::Str { flag, width } => self.push(alloc, Part::Str { flag, width })?,
        }
        Ok(Some(State::Outside))
    }

    /// All parts.
    pub fn finish(mut self, alloc: Global) -> Result<Vec<Part>, AllocError>
        ensures { IfOk result (λ parts. parts.items ≡ self.parts.items ++ part_of self.plain) }
    {
        self.flush(alloc)?;
        let Built { parts, plain: _ } = self;
        Ok(parts)
    }
}

//! Byte strings that are numbered as they come, each once.

ghost use Rattle.std.specs.Prelude.{◌≡◌, [], fold, map, Some, slice_get, IfOk, OnOk};
ghost use Rattle.token_texts.specs.Texts.{with_one, distinct};
ghost use Rattle.token_texts.specs.Names.{predefined};

use byte_texts::Text;
use std::alloc::{AllocError, Global};
use std::collections::BTreeMap;
use std::marker::Model;

/// Names, or strings, each once: contracts see their list. A look-up takes logarithmic time, whatever they are.
#[derive(Drop)]
pub struct Table {
    list: Vec<Text>,
    numbers: BTreeMap<Vec<u8>, u32>,
}

impl Model for Table {
    ghost use Rattle.std.specs.Prelude.{List, ℕ};
    ghost use Rattle.token_texts.specs.Indexed.{IsIndexed};

    ghost Value = { List (List ℕ) };

    ghost view = { λ t. t.list.items };

    ghost invariant = { λ t. IsIndexed t.numbers t.list.items };
}

/// A text of these bytes.
fn text_of(alloc: Global, bytes: &[u8]) -> Result<Text, AllocError>
    ensures { IfOk result (λ text. text ≡ bytes.now) }
{
    let mut text = Text::new(alloc);
    text.append(bytes)?;
    Ok(text)
}

impl Table {
    /// An empty table, which takes no memory.
    pub fn new(alloc: Global) -> Table
        ensures { result ≡ [] }
    {
        Table {
            list: Vec::new(alloc),
            numbers: BTreeMap::new(alloc),
        }
    }

    /// The number of the bytes, which come to the end of the table where they are new.
    pub fn number_of(&mut self, alloc: Global, bytes: &[u8]) -> Result<u32, AllocError>
        ensures table { OnOk result (self.new ≡ with_one self.old bytes.now) }
        ensures number { IfOk result (λ number. slice_get self.new number ≡ Some bytes.now) }
    {
        if let Some(number) = self.numbers.get(bytes) {
            return Ok(*number);
        }
        let Ok(number) = u32::try_from(self.list.len()) else {
            return Err(AllocError);
        };
        let text = text_of(alloc, bytes)?;
        self.list.reserve(1)?;
        self.numbers.insert(Vec::from_slice(alloc, bytes)?, number)?;
        let stored: Result<_, _> = self.list.push(text);
        stored.unwrap();
        Ok(number)
    }

    /// The numbers of names that are given, in their order.
    pub fn numbers_of(&mut self, alloc: Global, given: &[Text]) -> Result<Vec<u32>, AllocError>
        ensures table { OnOk result (self.new ≡ fold with_one self.old given.now) }
        ensures numbers { IfOk result (λ numbers. map (slice_get self.new) numbers.items ≡ map (λ name. Some name) given.now) }
    {
        let mut numbers = Vec::new(alloc);
        for name in given {
            let number = self.number_of(alloc, name.bytes())?;
            numbers.push(number)?;
        }
        Ok(numbers)
    }

    /// What is numbered, in the order of the numbers.
    pub fn into_list(self) -> Vec<Text>
        ensures { result.items ≡ self }
    {
        let Table { list, numbers: _ } = self;
        list
    }
}

/// The table of the names of types that stand in every text.
pub fn predefined_names(alloc: Global) -> Result<Table, AllocError>
    ensures { IfOk result (λ table. table ≡ distinct predefined) }
{
    let mut table = Table::new(alloc);
    table.number_of(alloc, b"size_t")?;
    table.number_of(alloc, b"ptrdiff_t")?;
    table.number_of(alloc, b"int8_t")?;
    table.number_of(alloc, b"int16_t")?;
    table.number_of(alloc, b"int32_t")?;
    table.number_of(alloc, b"int64_t")?;
    table.number_of(alloc, b"uint8_t")?;
    table.number_of(alloc, b"uint16_t")?;
    table.number_of(alloc, b"uint32_t")?;
    table.number_of(alloc, b"uint64_t")?;
    Ok(table)
}

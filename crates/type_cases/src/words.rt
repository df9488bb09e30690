//! The words of a step.

use c_types::{Field, Text, TypeNo, TypeTable};
use case_list::number;
use std::alloc::{AllocError, Global};

/// The number of a type: one of the nine by its name, the newest, or any by its number.
pub fn type_no(types: &TypeTable, word: &str) -> TypeNo {
    match word {
        "void" => 1,
        "char" => 2,
        "uchar" => 3,
        "short" => 4,
        "ushort" => 5,
        "int" => 6,
        "uint" => 7,
        "long" => 8,
        "ulong" => 9,
        "last" => u32::try_from(types.len()).unwrap_or(0),
        _ => number(word),
    }
}

/// A word, and what follows it.
pub fn split(text: &str) -> (&str, &str) {
    text.split_once(' ').unwrap_or((text, ""))
}

/// A text as a name.
pub fn text_of(alloc: Global, bytes: &str) -> Result<Text, AllocError> {
    let mut text = Text::new(alloc);
    text.append(bytes.as_bytes())?;
    Ok(text)
}

/// The fields that words say, each as `NAME:TYPE`.
pub fn fields_of(alloc: Global, types: &TypeTable, words: &str) -> Result<Vec<Field>, AllocError> {
    let mut fields = Vec::new(alloc);
    for word in words.split_whitespace() {
        let (name, kind) = word.split_once(':').unwrap_or((word, ""));
        fields.push(Field {
            name: text_of(alloc, name)?,
            kind: type_no(types, kind),
        })?;
    }
    Ok(fields)
}

//! A line of a list: `NAME :: FIELD :: FIELD ..`.

use std::alloc::{AllocError, Global};

/// A case: its name, and what its line says of it, field by field.
#[derive(Debug, Drop)]
pub struct Case {
    pub name: String,
    pub fields: Vec<String>,
}

/// The case of a line, if it is neither blank nor a comment, which begins with `#`.
pub fn case_of(alloc: Global, line: &str) -> Result<Option<Case>, AllocError> {
    let line = line.trim();
    if line.is_empty() || line.starts_with('#') {
        return Ok(None);
    }
    let mut name = String::new(alloc);
    let mut fields = Vec::new(alloc);
    for (at, field) in line.split("::").enumerate() {
        if at == 0 {
            name.push_str(field.trim())?;
        } else {
            fields.push(String::from_str(alloc, field.trim())?)?;
        }
    }
    Ok(Some(Case { name, fields }))
}

/// A decimal number, or 0 where there is none.
pub fn number(text: &str) -> u32 {
    text.trim().parse::<u32>().unwrap_or(0)
}

/// Decimal numbers with spaces between them.
pub fn numbers(alloc: Global, text: &str) -> Result<Vec<u32>, AllocError> {
    let mut all = Vec::new(alloc);
    for word in text.split_whitespace() {
        all.push(number(word))?;
    }
    Ok(all)
}

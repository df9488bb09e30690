//! What a case says: the text, and what is shown of it.

use case_list::{Case, number};
use std::alloc::{AllocError, Global};

/// What is shown of a text.
#[derive(Clone, Copy, Debug)]
pub enum View {
    /// The whole tree.
    Tree,
    /// The same with the place of each node, as `@TOKEN:LINE` before it.
    Places,
    /// What stands in the block of the function that is the last item.
    Body,
    /// The number of items.
    Count,
    /// That it is read.
    Reads,
    /// Each token that the parser is given.
    Tokens,
    /// The tree of the name of a type.
    TypeName,
}

/// A case with its fields read.
#[derive(Debug, Drop)]
pub struct Script {
    pub name: String,
    pub view: Option<View>,
    /// The letters that are names of types, where the text is the name of a type.
    pub letters: String,
    /// The name of the file with the text.
    pub text: String,
    /// What the text is made from, if it is in no file.
    pub pattern: Option<String>,
    /// The words that stand for `$` in the pattern, one text each.
    pub each: Vec<String>,
    /// How many of the first and the last bytes of the tree are printed, if not all.
    pub ends: Option<u32>,
}

fn view_of(word: &str) -> Option<View> {
    match word {
        "tree" => Some(View::Tree),
        "places" => Some(View::Places),
        "body" => Some(View::Body),
        "count" => Some(View::Count),
        "reads" => Some(View::Reads),
        "tokens" => Some(View::Tokens),
        "type" => Some(View::TypeName),
        _ => None,
    }
}

fn words_of(alloc: Global, text: &str) -> Result<Vec<String>, AllocError> {
    let mut words = Vec::new(alloc);
    for word in text.split_whitespace() {
        words.push(String::from_str(alloc, word)?)?;
    }
    Ok(words)
}

/// Reads one field: a key, and after a space its value. An unknown key takes the view away.
fn read_field(alloc: Global, script: &mut Script, field: &str) -> Result<(), AllocError> {
    let (key, value) = field.split_once(' ').unwrap_or((field, ""));
    match key {
        "text" => script.text = String::from_str(alloc, value.trim())?,
        "pattern" => script.pattern = Some(String::from_str(alloc, value)?),
        "each" => script.each = words_of(alloc, value)?,
        "types" => script.letters = String::from_str(alloc, value.trim())?,
        "ends" => script.ends = Some(number(value)),
        _ => script.view = None,
    }
    Ok(())
}

/// The script of a case: its first field says what is shown.
pub fn script_of(alloc: Global, case: &Case) -> Result<Script, AllocError> {
    let view = case.fields.first().map_or("", |field| field.as_str());
    let mut script = Script {
        name: case.name.clone()?,
        view: view_of(view),
        letters: String::new(alloc),
        text: case.name.clone()?,
        pattern: None,
        each: Vec::new(alloc),
        ends: None,
    };
    for field in case.fields.iter().skip(1) {
        read_field(alloc, &mut script, field.as_str())?;
    }
    Ok(script)
}

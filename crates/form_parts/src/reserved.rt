//! The functions that a program is given.

ghost use Rattle.std.specs.Prelude.{◌≡◌, codes};
ghost use Rattle.std.specs.Str.{bytes_eq};
ghost use Rattle.form_parts.specs.Variables.{is_reserved as reserved};

use token_texts::TokenTexts;

/// Whether it is the name of the function that prints.
pub fn is_printf(name: &[u8]) -> bool
    ensures { result ≡ bytes_eq name.now (codes "printf") }
{
    name == b"printf".as_slice()
}

/// Whether it is the name of the function that gives an object up.
pub fn is_free(name: &[u8]) -> bool
    ensures { result ≡ bytes_eq name.now (codes "free") }
{
    name == b"free".as_slice()
}

/// Whether it is the name of the function that gives an object.
pub fn is_malloc(name: &[u8]) -> bool
    ensures { result ≡ bytes_eq name.now (codes "malloc") }
{
    name == b"malloc".as_slice()
}

/// Whether it is the number of a name that a function has which a program is given.
pub fn is_reserved(texts: &TokenTexts, name: u32) -> bool
    ensures { result ≡ reserved texts.now name }
{
    let spelled = texts.name(name);
    is_printf(spelled) || is_malloc(spelled) || is_free(spelled)
}

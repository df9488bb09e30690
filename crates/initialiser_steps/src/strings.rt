//! String literals that initialise arrays of characters (C11 6.7.9p14).

ghost use Rattle.std.specs.Prelude.{◌≡◌, ◌+◌, ◌++◌, ◌∷◌, [], if◌then◌else◌, length, IfOk};
ghost use Rattle.declaration_rules.specs.Initialisers as spec;
ghost use Rattle.declaration_rules.specs.declared.stores.Unfit.TheVariants as unfits;
ghost use Rattle.initialiser_steps.specs.Adds.{Adds};

use crate::found::Found;
use crate::stored::StoredPart;
use byte_texts::Text;
use declaration_rules::{Step, Unfit};
use rule_answers::out_of_memory;
use static_rules::CheckError;
use std::alloc::{AllocError, Global};

/// A literal's bytes, with the zero byte where it is to be stored.
fn text_of(alloc: Global, bytes: &[u8], ended: bool) -> Result<Text, AllocError>
    ensures { IfOk result (λ text. text ≡ (if ended then bytes.now ++ 0 ∷ [] else bytes.now)) }
{
    let mut text = Text::new(alloc);
    text.append(bytes)?;
    if ended {
        text.push(0)?;
    }
    Ok(text)
}

/// An array of so many characters takes a literal with or without its zero byte. One that is longer is `wrong`.
#[tactic(auto, unfolding(declaration_rules::specs::Initialisers::string_bytes))]
pub fn string_bytes(
    alloc: Global,
    found: &mut Found,
    wrong: Unfit,
    path: &[Step],
    count: u32,
    bytes: &[u8],
) -> Result<(), CheckError>
    ensures { Adds (spec.string_bytes wrong path.now count bytes.now) result found.old found.new }
{
    if (count as usize) < bytes.len() {
        found.add_unfit(wrong);
        return Ok(());
    }
    let Ok(text) = text_of(alloc, bytes, bytes.len() < count as usize) else {
        return Err(out_of_memory());
    };
    match found.add_store(alloc, path, StoredPart::Bytes(text)) {
        Ok(()) => Ok(()),
        Err(error) => Err(error),
    }
}

/// An array of characters without a size takes a literal with its zero byte, and has as many elements (C11 6.7.9p22).
pub fn counted_string(alloc: Global, found: &mut Found, bytes: &[u8]) -> Result<u32, CheckError>
    ensures count { IfOk result (λ count. count ≡ length bytes.now + 1) }
    ensures stored { let made = spec.string_bytes unfits.Mismatch [] (length bytes.now + 1) bytes.now in
        Adds made result found.old found.new }
{
    let Ok(count) = u32::try_from(bytes.len() as u64 + 1) else {
        return Err(out_of_memory());
    };
    match string_bytes(alloc, found, Unfit::Mismatch, &[], count, bytes) {
        Ok(()) => Ok(count),
        Err(error) => Err(error),
    }
}

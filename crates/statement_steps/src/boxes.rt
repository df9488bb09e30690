//! Parts of a statement in boxes. They are generic, so that what drops a part on the way out is proved once.

ghost use Rattle.std.specs.Prelude.{◌≡◌, MatchResult};
ghost use Rattle.rule_answers.specs.Faults.{want_of_memory};

use rule_answers::out_of_memory;
use sqlite_items::Boxed;
use static_rules::CheckError;
use std::alloc::Global;

/// A part in a box, beside one that waits for it.
pub(crate) fn boxed<A: Drop, B: Drop>(
    alloc: Global,
    part: A,
    waits: B,
) -> Result<(Boxed<A>, B), CheckError>
    ensures { MatchResult result (λ made. made ≡ (part, waits)) (λ e. e ≡ want_of_memory) }
{
    match Boxed::new(alloc, part) {
        Ok(part) => Ok((part, waits)),
        Err(_) => Err(out_of_memory()),
    }
}

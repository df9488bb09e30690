//! Parts of a node in boxes. They are generic, so that what drops a part on the way out is proved once.

ghost use Rattle.std.specs.Prelude.{◌≡◌, IfOk};

use sqlite_items::Boxed;
use std::alloc::{AllocError, Global};

/// Two parts in boxes.
pub fn pair<A: Drop, B: Drop>(alloc: Global, a: A, b: B) -> Result<(Boxed<A>, Boxed<B>), AllocError>
    ensures { IfOk result (λ made. made ≡ (a, b)) }
{
    let a = Boxed::new(alloc, a)?;
    let b = Boxed::new(alloc, b)?;
    Ok((a, b))
}

/// Three parts in boxes.
pub fn triple<A: Drop, B: Drop, C: Drop>(
    alloc: Global,
    a: A,
    b: B,
    c: C,
) -> Result<(Boxed<A>, Boxed<B>, Boxed<C>), AllocError>
    ensures { IfOk result (λ made. made ≡ (a, b, c)) }
{
    let a = Boxed::new(alloc, a)?;
    let (b, c) = pair(alloc, b, c)?;
    Ok((a, b, c))
}

/// What was made, with a part that waits for it; that part is let go where nothing was made.
pub fn beside<A, B: Drop>(made: Result<A, AllocError>, waits: B) -> Result<(A, B), AllocError>
    ensures first { IfOk result (λ both. made ≡ Ok both.0) }
    ensures second { IfOk result (λ both. both.1 ≡ waits) }
{
    let made = made?;
    Ok((made, waits))
}

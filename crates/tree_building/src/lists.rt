//! Lists of just so many, taken apart.

ghost use Rattle.std.specs.Prelude.{◌≡◌, [], ◌∷◌, length, MatchOption};

use sqlite_items::Items;

/// The item of a list that has only one.
#[tactic(auto, using(crate::proofs::LastItems::one_last))]
pub fn one<A: Drop>(mut items: Items<A>) -> Option<A>
    ensures { MatchOption result (¬ (length items ≡ 1)) (λ x. items ≡ x ∷ []) }
{
    if items.len() != 1 {
        return None;
    }
    let only = items.pop()?;
    Some(only)
}

/// The items of a list that has two, in its order.
#[tactic(auto, using(crate::proofs::LastItems::two_last))]
pub fn two<A: Drop>(mut items: Items<A>) -> Option<(A, A)>
    ensures { MatchOption result (¬ (length items ≡ 2)) (λ both. items ≡ both.0 ∷ both.1 ∷ []) }
{
    if items.len() != 2 {
        return None;
    }
    let second = items.pop()?;
    let first = items.pop()?;
    Some((first, second))
}

/// The items of a list that has three, in its order.
#[tactic(auto, using(crate::proofs::LastItems::three_last))]
pub fn three<A: Drop>(mut items: Items<A>) -> Option<(A, A, A)>
    ensures { MatchOption result (¬ (length items ≡ 3)) (λ all. items ≡ all.0 ∷ all.1 ∷ all.2 ∷ []) }
{
    if items.len() != 3 {
        return None;
    }
    let third = items.pop()?;
    let second = items.pop()?;
    let first = items.pop()?;
    Some((first, second, third))
}

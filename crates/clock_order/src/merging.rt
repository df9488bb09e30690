//! The histories of several regions as one.

ghost use Rattle.std.specs.Prelude.{◌≡◌, ◌<◌, ◌+◌, ◌∷◌, [], length, IfOk, OnOk, IsPermutation};
ghost use Rattle.std.specs.List.{All, AllPairs};
ghost use Rattle.std.specs.BinaryHeap.{heap_items, IsHeap, IsUpperBound};
ghost use Rattle.heap_model.specs.Order.{StampsRise, IsMerge};
ghost use Rattle.clock_order.specs.Parts.{entries_of, by_region, AreApart, Extends, KeepsLegal};
ghost use Rattle.clock_order.specs.Heads.{part_at, left, IsHead, AreHeads, IsMoved, head_cmp};

use crate::head::Head;
use heap_model::{History, law_extension, law_restrictions};
use std::alloc::{AllocError, Global};
use std::cmp::Reverse;
use std::collections::BinaryHeap;

// The head of a part at a place.
fn head_at(parts: &[History], part: usize, at: u64) -> Head
    requires part { part < length parts.now }
    requires at { at < length (part_at parts.now part) }
    ensures head { IsHead parts.now result }
    ensures place { (result.part ≡ part) × (result.at ≡ at) }
{
    let entry = parts[part].get(at);
    Head {
        stamp: entry.stamp,
        region: entry.region,
        part,
        at,
    }
}

// The first entries of all parts, the least of them on top.
fn first_heads(alloc: Global, parts: &[History]) -> Result<BinaryHeap<Reverse<Head>>, AllocError>
    ensures heads { IfOk result (λ h. AreHeads parts.now (heap_items h)) }
    ensures order { IfOk result (λ h. IsHeap head_cmp (heap_items h)) }
    ensures all { IfOk result (λ h. IsPermutation (entries_of parts.now) (left parts.now (heap_items h))) }
{
    let mut heads = BinaryHeap::with_capacity(alloc, parts.len())?;
    for part in 0..parts.len() {
        if parts[part].len() > 0 {
            heads.push(Reverse(head_at(parts, part, 0)))?;
        }
    }
    Ok(heads)
}

// Takes the least head's entry, and puts the next one of its part among the heads.
fn advance(
    parts: &[History],
    head: Head,
    heads: &mut BinaryHeap<Reverse<Head>>,
    merged: &mut History,
) -> Result<(), AllocError>
    requires apart { AllPairs AreApart parts.now }
    requires stamps { All (λ p. StampsRise p.entries) parts.now }
    requires heads { AreHeads parts.now (record { 0 = head } ∷ heap_items heads.old) }
    requires order { IsHeap head_cmp (heap_items heads.old) }
    requires least { IsUpperBound head_cmp (record { 0 = head }) (heap_items heads.old) }
    requires moved { IsMoved (entries_of parts.now)
        (left parts.now (record { 0 = head } ∷ heap_items heads.old)) merged.old.entries }
    ensures heads { OnOk result (AreHeads parts.now (heap_items heads.new)) }
    ensures order { OnOk result (IsHeap head_cmp (heap_items heads.new)) }
    ensures moved { OnOk result
        (IsMoved (entries_of parts.now) (left parts.now (heap_items heads.new)) merged.new.entries) }
    ensures longer { OnOk result (length merged.new.entries ≡ length merged.old.entries + 1) }
{
    let part = &parts[head.part];
    merged.room()?;
    merged.push(part.get(head.at));
    let count = part.len();
    if head.at + 1 < count {
        heads.push(Reverse(head_at(parts, head.part, head.at + 1)))?;
    }
    Ok(())
}

// The entries of all parts, each taken once, the least of those that come next in their parts first.
fn merged(alloc: Global, parts: &[History]) -> Result<History, AllocError>
    requires apart { AllPairs AreApart parts.now }
    requires stamps { All (λ p. StampsRise p.entries) parts.now }
    ensures { IfOk result (λ h. IsMoved (entries_of parts.now) [] h.entries) }
{
    let mut heads = first_heads(alloc, parts)?;
    let mut merged = History::new(alloc);
    while let Some(Reverse(head)) = heads.pop() {
        advance(parts, head, &mut heads, &mut merged)?;
    }
    Ok(merged)
}

/// The entries of all parts in the order of their stamps, and of their regions where stamps are equal. Each part is the
/// history of a region. On an error the parts are dropped. The entries that come next in their parts stand in a binary
/// heap, so an entry takes as many comparisons as the logarithm of the count of parts.
pub fn merge(alloc: Global, parts: Vec<History>) -> Result<History, AllocError>
    requires apart { AllPairs AreApart parts.items }
    requires stamps { All (λ p. StampsRise p.entries) parts.items }
    ensures rearranges { IfOk result (λ h. IsPermutation (entries_of parts.items) h.entries) }
    ensures merges { IfOk result (λ h. IsMerge (by_region parts.items) h.entries) }
    ensures legal { IfOk result (λ h. KeepsLegal (by_region parts.items) h.entries) }
    ensures extends { IfOk result (λ h. Extends (by_region parts.items) h.entries) }
{
    law_restrictions();
    law_extension();
    merged(alloc, parts.as_slice())
}

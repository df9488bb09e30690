//! The bounds that an offset of an object has.

ghost use Rattle.std.specs.Prelude.{◌≡◌, ◌≤◌, ◌<◌, ◌^◌, IfSome, MatchOption, map};
ghost use Rattle.std.specs.Option.{option_map};
ghost use Rattle.c_types.specs.Shapes.{size as size_of};
ghost use Rattle.c_types.specs.Table.{HasSize, IsNumber, shape_of};
ghost use Rattle.type_layout.specs.Runs.{runs_of_object, with_number, end_of};
ghost use Rattle.type_layout.specs.Matches as matches;
ghost use Rattle.type_layout.specs.Preferred as spec;
ghost use Rattle.type_layout.specs.Preferred.{HasNoCandidate, ArePreferred, pref};
ghost use Rattle.type_layout.specs.Search as search;

use crate::object_runs::{Run, size_in};
use c_types::{CType, TypeNo, TypeTable, law_table};

/// Offsets from an object's first byte: of the first byte inside, and of the first after them.
#[derive(Clone, Copy, Debug, PartialEq, Eq)]
pub struct Bounds {
    pub lo: u64,
    pub hi: u64,
}

/// A part of an object that matches a wanted type, from `lo` to `hi`: in which tier, and after how many bytes its next
/// value begins.
#[derive(Clone, Copy, Debug)]
pub struct Match {
    pub tier: u32,
    pub lo: u64,
    pub hi: u64,
    pub step: u64,
}

/// The number of `void`.
const VOID: TypeNo = 1;

/// The tier in which a run of a type matches a wanted type, if it does.
#[tactic(auto, unfolding(c_types::specs::Table::shape_of))]
fn tier(types: &TypeTable, kind: TypeNo, want: TypeNo) -> Option<u32>
    requires kind { IsNumber types.now kind }
    requires want { IsNumber types.now want }
    ensures { result ≡ matches.tier_of (shape_of types.now kind) (shape_of types.now want) }
{
    if kind == want {
        return Some(1);
    }
    match (types.get(kind), types.get(want)) {
        (CType::Num(a, _), CType::Num(b, _)) if a == b => Some(1),
        (CType::Pointer(a), CType::Pointer(b)) if a == VOID || b == VOID => Some(2),
        _ => None,
    }
}

/// The match of a run, if it matches.
fn run_match(types: &TypeTable, run: &Run, want: TypeNo) -> Option<Match>
    requires kind { HasSize types.now run.now.kind }
    requires want { IsNumber types.now want }
    requires sized { 0 < size_of (shape_of types.now run.now.kind) }
    requires fits { end_of (search.run_in types.now run.now) < 2 ^ 64 }
    ensures value { result ≡ spec.run_match (shape_of types.now want) (search.run_in types.now run.now) }
    ensures step { IfSome result (λ m. 0 < m.step) }
{
    let tier = tier(types, run.kind, want)?;
    let step = size_in(types, run.kind);
    Some(Match {
        tier,
        lo: run.lo,
        hi: run.lo + run.count * step,
        step,
    })
}

/// Whether a type is one of the character types.
#[tactic(auto, unfolding(c_types::specs::Table::shape_of))]
fn is_character(types: &TypeTable, t: TypeNo) -> bool
    requires { IsNumber types.now t }
    ensures { result ≡ matches.is_character (shape_of types.now t) }
{
    matches!(types.get(t), CType::Num(1, _))
}

/// The match of the whole object, if it matches.
fn object_match(types: &TypeTable, elem: TypeNo, size: u64, want: TypeNo) -> Option<Match>
    requires elem { IsNumber types.now elem }
    requires want { IsNumber types.now want }
    ensures value { result ≡ spec.object_match (shape_of types.now elem) size (shape_of types.now want) }
    ensures step { IfSome result (λ m. 0 < m.step) }
{
    let tier = if is_character(types, want) {
        2
    } else if is_character(types, elem) {
        3
    } else {
        return None;
    };
    Some(Match {
        tier,
        lo: 0,
        hi: size,
        step: 1,
    })
}

/// Whether an offset may mean a match.
fn may_mean(m: &Match, k: u64) -> bool
    requires { 0 < m.now.step }
    ensures { result ≡ spec.may_mean k m.now }
{
    m.lo <= k && k <= m.hi && (k - m.lo) % m.step == 0
}

/// Whether a match goes before another, by the first of the four keys in which they differ.
fn precedes(a: &Match, b: &Match, k: u64) -> bool
    requires first { a.now.lo ≤ a.now.hi }
    requires second { b.now.lo ≤ b.now.hi }
    ensures { result ≡ spec.precedes k a.now b.now }
{
    let (a_ends, b_ends) = (a.hi == k, b.hi == k);
    if a_ends != b_ends {
        return b_ends;
    }
    if a.tier != b.tier {
        return a.tier < b.tier;
    }
    let (a_span, b_span) = (a.hi - a.lo, b.hi - b.lo);
    if a_span != b_span {
        return a_span > b_span;
    }
    a.lo < b.lo
}

/// The best match so far at the offset `k`, where there may be one more.
pub fn consider(k: u64, best: Option<Match>, next: Option<Match>) -> Option<Match>
    requires ordered { search.IsOrdered best }
    requires step { IfSome next (λ m. 0 < m.step) }
    ensures value { result ≡ search.consider k best next }
    ensures ordered { search.IsOrdered result }
{
    let Some(next) = next else {
        return best;
    };
    if !may_mean(&next, k) {
        return best;
    }
    match best {
        Some(best) if !precedes(&next, &best, k) => Some(best),
        _ => Some(next),
    }
}

/// The bounds of a match, if there is one.
fn bounds_of(best: Option<Match>) -> Option<Bounds>
    ensures { result ≡ option_map spec.bounds_of best }
{
    best.map(|best| Bounds {
        lo: best.lo,
        hi: best.hi,
    })
}

/// The bounds of the preferred match at the offset `k` of an object of `size` bytes, made of values of one type, whose
/// runs are these. There are none where nothing there matches the wanted type.
pub fn preferred(
    types: &TypeTable,
    elem: TypeNo,
    size: u64,
    runs: &[Run],
    k: u64,
    want: TypeNo,
) -> Option<Bounds>
    requires elem { HasSize types.now elem }
    requires want { HasSize types.now want }
    requires runs { runs.now ≡ map with_number (runs_of_object (shape_of types.now elem) size) }
    ensures value { result ≡ pref (shape_of types.now elem) size k (shape_of types.now want) }
    ensures first { MatchOption result (HasNoCandidate (shape_of types.now elem) size k (shape_of types.now want))
        (λ bounds. ArePreferred (shape_of types.now elem) size k (shape_of types.now want) bounds) }
{
    law_table(types);
    let mut best = None;
    for run in runs {
        best = consider(k, best, run_match(types, run, want));
    }
    bounds_of(consider(k, best, object_match(types, elem, size, want)))
}

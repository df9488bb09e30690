//! Tags (C11 6.7.2.3).

ghost use Rattle.std.specs.Prelude.{◌≡◌};
ghost use Rattle.c_types.specs.Adding as adding;
ghost use Rattle.declaration_rules.specs.Specifiers as spec;
ghost use Rattle.rule_answers.specs.Gives.{Gives, Makes};
ghost use Rattle.static_rules.specs.Source.{Source, spelled};
ghost use Rattle.static_rules.specs.States.{tag_of};

use c_types::{Text, TypeNo};
use declaration_rules::{Opened, Setting};
use operand_plans::{INT, has_size};
use rule_answers::{MAX_TYPES, fault, out_of_memory};
use static_rules::{CheckError, CheckKind, State, TagSymbol, Where};
use std::alloc::Global;

/// The tag that is meant by a name: alone in a declaration it is one of the innermost scope.
pub fn tag_meant(setting: Setting, place: Where, state: &State, name: u32) -> Option<TagSymbol>
    ensures { result ≡ spec.tag_meant setting place state.now name }
{
    let found = match setting {
        Setting::Declaration(true) => state.tags.meaning_here(place.tags_before, name),
        _ => state.tags.meaning(name),
    };
    found.copied()
}

/// Adds a type without members, and declares its tag where it has one.
fn add_tag(
    alloc: Global,
    state: &mut State,
    union_tag: bool,
    spelling: &[u8],
    name: Option<u32>,
) -> Result<TypeNo, CheckError>
    ensures { Makes (spec.with_new_tag state.old union_tag name (adding.added_tag union_tag spelling.now state.old.types)) result state.new }
{
    if state.types.len() >= MAX_TYPES {
        return Err(out_of_memory());
    }
    let mut text = Text::new(alloc);
    match text.append(spelling) {
        Ok(()) => {}
        Err(_) => return Err(out_of_memory()),
    }
    match state.types.add_tag(union_tag, text) {
        Err(_) => Err(out_of_memory()),
        Ok(kind) => match name {
            None => Ok(kind),
            Some(name) => {
                match state
                    .tags
                    .declare(name, TagSymbol::Aggregate(union_tag, kind))
                {
                    Ok(()) => Ok(kind),
                    Err(_) => Err(out_of_memory()),
                }
            }
        },
    }
}

/// A new struct or union without members: the spelling is that of its tag, and empty where it has none.
#[tactic(auto, unfolding(declaration_rules::specs::Specifiers::new_tag))]
pub fn new_tag(
    alloc: Global,
    state: &mut State,
    union_tag: bool,
    spelling: &[u8],
    name: Option<u32>,
) -> Result<TypeNo, CheckError>
    ensures { (source : Source) → spec.tag_name source name ≡ spelling.now → Makes (spec.new_tag source state.old union_tag name) result state.new }
{
    add_tag(alloc, state, union_tag, spelling, name)
}

fn is_as(one: bool, other: bool) -> bool
    ensures { result ≡ adding.is_as one other }
{
    if one { other } else { !other }
}

/// `struct NAME`: the tag that the name means, or a new one. One of another word is a second definition.
pub fn tag_used(
    alloc: Global,
    here: u32,
    state: &mut State,
    union_tag: bool,
    spelling: &[u8],
    name: u32,
    earlier: Option<TagSymbol>,
) -> Result<TypeNo, CheckError>
    ensures { (source : Source) → spelled source name ≡ spelling.now → Gives (spec.tag_used source here state.old union_tag name earlier) result state.new }
{
    match earlier {
        Some(TagSymbol::Aggregate(is_union, kind)) => {
            if is_as(is_union, union_tag) {
                Ok(kind)
            } else {
                Err(fault(CheckKind::Redefined, here))
            }
        }
        Some(TagSymbol::Enumeration) => Err(fault(CheckKind::Redefined, here)),
        None => match new_tag(alloc, state, union_tag, spelling, Some(name)) {
            Ok(kind) => Ok(kind),
            Err(_) => Err(out_of_memory()),
        },
    }
}

/// A tag of this word that has no members yet may be completed.
fn opened_again(state: &State, union_tag: bool, earlier: TagSymbol) -> Opened
    ensures { result ≡ spec.opened_again state.now union_tag earlier }
{
    match earlier {
        TagSymbol::Aggregate(is_union, kind) => Opened {
            kind,
            completes: is_as(is_union, union_tag) && !has_size(&state.types, kind),
        },
        TagSymbol::Enumeration => Opened {
            kind: 0,
            completes: false,
        },
    }
}

/// `struct NAME {`: the tag of the innermost scope, or a new one.
#[tactic(auto, unfolding(declaration_rules::specs::Specifiers::open_tag))]
pub fn open_tag(
    alloc: Global,
    place: Where,
    state: &mut State,
    union_tag: bool,
    spelling: &[u8],
    name: Option<u32>,
) -> Result<Opened, CheckError>
    ensures { (source : Source) → spec.tag_name source name ≡ spelling.now → Makes (spec.open_tag source place state.old union_tag name) result state.new }
{
    if let Some(number) = name {
        if let Some(earlier) = state.tags.meaning_here(place.tags_before, number) {
            return Ok(opened_again(state, union_tag, *earlier));
        }
    }
    match new_tag(alloc, state, union_tag, spelling, name) {
        Ok(kind) => Ok(Opened {
            kind,
            completes: true,
        }),
        Err(_) => Err(out_of_memory()),
    }
}

/// `enum NAME {`: whether the tag is new in its scope, in which it is declared then.
pub fn open_enumeration(
    place: Where,
    state: &mut State,
    name: Option<u32>,
) -> Result<bool, CheckError>
    ensures { Makes (spec.open_enumeration place state.old name) result state.new }
{
    match name {
        None => Ok(true),
        Some(name) => {
            if state.tags.meaning_here(place.tags_before, name).is_some() {
                return Ok(false);
            }
            match state.tags.declare(name, TagSymbol::Enumeration) {
                Ok(()) => Ok(true),
                Err(_) => Err(out_of_memory()),
            }
        }
    }
}

/// `enum NAME` is one that was declared before.
pub fn enumeration_used(here: u32, state: &State, name: u32) -> Result<TypeNo, CheckError>
    ensures { Gives (spec.enumeration_used here state.now (tag_of state.now name)) result state.now }
{
    match state.tags.meaning(name) {
        Some(TagSymbol::Enumeration) => Ok(INT),
        Some(TagSymbol::Aggregate(..)) => Err(fault(CheckKind::Redefined, here)),
        None => Err(fault(CheckKind::Unknown, here)),
    }
}

//! Members of structs and unions (C11 6.7.2.1): the names of one list are new in it.

ghost use Rattle.std.specs.Prelude.{◌≡◌, Ok, MatchResult};
ghost use Rattle.declaration_rules.specs.Specifiers as spec;
ghost use Rattle.declarator_rules.specs.Names.{spelling_of};
ghost use Rattle.rule_answers.specs.Faults.{want_of_memory};
ghost use Rattle.rule_answers.specs.Gives.{Tells};
ghost use Rattle.static_rules.specs.Source.{Source};
ghost use Rattle.static_rules.specs.declared.states.State.{State as Whole};

use crate::fields::Fields;
use crate::making::made_of;
use crate::parts::member_kind;
use c_types::TypeNo;
use declaration_rules::{Around, DeclaredName};
use rule_answers::{fault, out_of_memory};
use static_rules::{CheckError, CheckKind, Made, State};
use std::alloc::Global;

/// Whether a member of the name was found before.
fn is_repeated(found: &Fields, name: Option<DeclaredName>, spelling: &[u8]) -> bool
    ensures { (source : Source) → spelling_of source name ≡ spelling.now → result ≡ spec.is_field source found.now name }
{
    match name {
        Some(_) => found.has(spelling),
        None => false,
    }
}

/// Adds a member where the declarator has a name.
fn add_field(
    alloc: Global,
    found: &mut Fields,
    name: Option<DeclaredName>,
    spelling: &[u8],
    kind: TypeNo,
) -> Result<(), CheckError>
    ensures { (source : Source) (s : Whole) → spelling_of source name ≡ spelling.now → MatchResult result (λ _. spec.with_field source found.old name (kind, s) ≡ (found.new, s)) (λ e. e ≡ want_of_memory) }
{
    match name {
        None => Ok(()),
        Some(_) => match found.push(alloc, spelling, kind) {
            Ok(()) => Ok(()),
            Err(_) => Err(out_of_memory()),
        },
    }
}

/// A declarator of a member, behind the members that were found: the spelling is that of its name.
#[tactic(auto, using(crate::proofs::Tellings::bound_tells))]
pub fn field_made(
    alloc: Global,
    state: &mut State,
    here: u32,
    base: &Made,
    found: &mut Fields,
    declared: &Around,
    spelling: &[u8],
) -> Result<(), CheckError>
    ensures { (source : Source) → spelling_of source declared.now.name ≡ spelling.now → MatchResult result (λ _. spec.field_made source here base.now found.old (declared.now, state.old) ≡ Ok (found.new, state.new)) (λ e. Tells (spec.field_made source here base.now found.old (declared.now, state.old)) e) }
{
    if is_repeated(found, declared.name, spelling) {
        return Err(fault(CheckKind::Redefined, here));
    }
    let whole = match made_of(alloc, state, declared.parts.as_slice(), base) {
        Ok(whole) => whole,
        Err(error) => return Err(error),
    };
    let kind = match member_kind(here, state, &whole) {
        Ok(kind) => kind,
        Err(error) => return Err(error),
    };
    match add_field(alloc, found, declared.name, spelling, kind) {
        Ok(()) => Ok(()),
        Err(_) => Err(out_of_memory()),
    }
}

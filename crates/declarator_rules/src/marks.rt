//! Lists of parameters, whose scope ends with them (C11 6.2.1p4), and the parts of a declarator.

ghost use Rattle.std.specs.Prelude.{◌≡◌, ℕ, ℤ, take, drop, IfErr, IfOk, OnOk, MatchResult};
ghost use Rattle.c_grammar.specs.declared.phrases.Expression.{Expression};
ghost use Rattle.declaration_rules.specs.Declarators as spec;
ghost use Rattle.declaration_rules.specs.Parts as parts;
ghost use Rattle.declaration_rules.specs.Readers.{Readers};
ghost use Rattle.declarator_rules.specs.Marks.{marks_of, back_to};
ghost use Rattle.rule_answers.specs.Faults.{want_of_memory};
ghost use Rattle.rule_answers.specs.Gives.{Makes};
ghost use Rattle.static_rules.specs.Answers.{Answer};
ghost use Rattle.static_rules.specs.Source.{Source};
ghost use Rattle.static_rules.specs.declared.states.State.{State as Whole};
ghost use Rattle.static_rules.specs.declared.states.Where.{Where as Place};

use declaration_rules::{Around, ParameterList, Part};
use rule_answers::out_of_memory;
use sqlite_items::Items;
use static_rules::{CheckError, State};
use std::alloc::{AllocError, Global};

/// How many variables, ordinary names and tags there are at a place of the text.
#[derive(Clone, Copy, Debug, PartialEq, Eq)]
pub struct Marks {
    pub variables: usize,
    pub symbols: usize,
    pub tags: usize,
}

impl Marks {
    /// How many there are by now.
    pub fn of(state: &State) -> Marks
        ensures { result ≡ marks_of state.now }
    {
        Marks {
            variables: state.variables.len(),
            symbols: state.symbols.len(),
            tags: state.tags.len(),
        }
    }
}

/// Takes all items off but the first `start`, and gives them in their order. Where memory runs out some are lost.
fn split_items<T: Drop>(
    alloc: Global,
    from: &mut Items<T>,
    start: usize,
) -> Result<Items<T>, AllocError>
    ensures taken { IfOk result (λ taken. taken ≡ drop start from.old) }
    ensures rest { OnOk result (from.new ≡ take start from.old) }
{
    let mut taken = Vec::new(alloc);
    while from.len() > start {
        if let Some(item) = from.pop() {
            taken.push(item)?;
        }
    }
    taken.reverse();
    Ok(Items::from_vec(taken))
}

/// Takes off what was declared behind a place.
fn split_list(alloc: Global, before: Marks, state: &mut State) -> Result<ParameterList, CheckError>
    ensures list { IfOk result (λ list. list ≡ record { variables = drop before.variables state.old.variables; names = drop before.symbols state.old.symbols; tags = drop before.tags state.old.tags }) }
    ensures rest { OnOk result (state.new ≡ back_to before state.old) }
    ensures memory { IfErr result (λ e. e ≡ want_of_memory) }
{
    let variables = match split_items(alloc, &mut state.variables, before.variables) {
        Ok(variables) => variables,
        Err(_) => return Err(out_of_memory()),
    };
    let names = match state.symbols.split_off(before.symbols) {
        Ok(names) => names,
        Err(_) => return Err(out_of_memory()),
    };
    let tags = match state.tags.split_off(before.tags) {
        Ok(tags) => tags,
        Err(_) => return Err(out_of_memory()),
    };
    Ok(ParameterList {
        variables,
        names,
        tags,
    })
}

/// What stands in a declarator, with a part around it.
pub fn with_part(mut inner: Around, part: Part) -> Result<Around, CheckError>
    ensures { MatchResult result (λ whole. whole ≡ parts.around part inner) (λ e. e ≡ want_of_memory) }
{
    match inner.parts.push(part) {
        Ok(()) => Ok(inner),
        Err(_) => Err(out_of_memory()),
    }
}

/// What stands in a declarator, with a list of parameters behind it that began at a place. What the list declared is no
/// longer in scope then.
pub fn with_list(
    alloc: Global,
    here: u32,
    inner: Around,
    before: Marks,
    state: &mut State,
) -> Result<Around, CheckError>
    ensures { (source : Source) (constant : ℕ → Place → Whole → Expression → Answer (ℤ × Whole)) (readers : Readers) (s : Whole) → marks_of s ≡ before → Makes (spec.with_list source constant readers here (inner, s) state.old) result state.new }
{
    match split_list(alloc, before, state) {
        Ok(list) => with_part(inner, Part::Function(here, list)),
        Err(_) => Err(out_of_memory()),
    }
}

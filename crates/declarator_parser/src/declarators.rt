//! Declarators, read by descent (C11 6.7.6 and 6.7.7).

ghost use Rattle.std.specs.Prelude.{◌≡◌, ◌<◌, ◌≤◌, ◌+◌, [], Some, None, max, length, IfOk, OnSome};
ghost use Rattle.c_tokens.specs.Limits.{max_tokens};
ghost use Rattle.c_tokens.specs.declared.kind.Kind.TheVariants as kind;
ghost use Rattle.c_grammar.specs.Tokens.{kind_at};
ghost use Rattle.grammar_descent.specs.AllReaders.{readers};
ghost use Rattle.grammar_descent.specs.DeclaratorSteps as spec;
ghost use Rattle.declarator_parser.specs.Below.{below, NestsBelow};
ghost use Rattle.token_reader.specs.Input.{Reads};
ghost use Rattle.token_reader.specs.Found.{spelled_declarator, spelled_found, HasSpelling, ReadsDeclarator};
ghost use Rattle.token_reader.specs.Reader.{IsSameText};
ghost use Rattle.declarator_parser.specs.Parts.{qualifier_at, part_at, part_after};

use crate::declaring::Declaring;
use c_grammar::{Declarator, Expression, Level, Naming, Place, Qualifier};
use c_tokens::{Keyword, Kind, Mark};
use sqlite_items::{Boxed, Items};
use std::alloc::{AllocError, Global};
use token_reader::{FoundDeclarator, FoundExpression, FoundSpecs, ParseError, Reader, refused_at};

/// The qualifier that stands next, of those that may stand after a `*`.
#[tactic(auto, unfolding(crate::specs::Parts::qualifier_at))]
fn next_qualifier(reader: &Reader<'_>) -> Option<Qualifier>
    ensures value { result ≡ qualifier_at reader.now.tokens reader.now.state.at }
    ensures within { OnSome result (reader.now.state.at < length reader.now.tokens) }
{
    if reader.sees_word(Keyword::Const) {
        Some(Qualifier::Const)
    } else if reader.sees_word(Keyword::Restrict) {
        Some(Qualifier::Restrict)
    } else {
        None
    }
}

/// `const` and `restrict` after a `*`.
fn qualifiers(alloc: Global, reader: &mut Reader<'_>) -> Result<Items<Qualifier>, AllocError>
    ensures value { IfOk result (λ found. spec.qualifiers reader.old.tokens (length reader.old.tokens) [] reader.old.state ≡ (found, reader.new.state)) }
    ensures kept { IsSameText reader.old reader.new }
{
    let mut found = Items::new(alloc);
    for _turn in 0..reader.tokens_len() {
        let Some(qualifier) = next_qualifier(reader) else {
            return Ok(found);
        };
        found.push(qualifier)?;
        reader.pass(1);
    }
    Ok(found)
}

/// What may stand after a declarator: brackets, or parameters.
#[derive(Clone, Copy, Debug, PartialEq, Eq)]
pub enum Part {
    Array,
    Function,
}

/// The part of a declarator that stands next.
#[tactic(auto, unfolding(crate::specs::Parts::part_at))]
fn next_part(reader: &Reader<'_>) -> Option<Part>
    ensures value { result ≡ part_at reader.now.tokens reader.now.state.at }
    ensures within { OnSome result (reader.now.state.at < length reader.now.tokens) }
{
    if reader.sees_mark(Mark::LeftBracket) {
        Some(Part::Array)
    } else if reader.sees_mark(Mark::LeftParen) {
        Some(Part::Function)
    } else {
        None
    }
}

fn may_leave_out(how: Naming) -> bool
    ensures { result ≡ spec.may_leave_out how }
{
    match how {
        Naming::Named => false,
        Naming::NamedOrNot | Naming::NotNamed => true,
    }
}

/// Whether a mark stands next that has a declarator after it.
fn opens_declarator(reader: &Reader<'_>) -> bool {
    reader.sees_mark(Mark::Star) || reader.sees_mark(Mark::LeftParen)
}

/// The name that is left out, where it may be.
fn no_name(reader: &Reader<'_>, how: Naming) -> Result<FoundDeclarator, ParseError>
    ensures reads { Reads (λ text ts. spec.no_name how) reader.now (spelled_found reader.now.texts result) reader.now }
    ensures spelled { IfOk result (HasSpelling reader.now.texts) }
{
    if may_leave_out(how) {
        Ok(FoundDeclarator {
            node: Declarator::Unnamed,
            name: None,
            own: None,
            height: 0,
        })
    } else {
        Err(reader.refuse())
    }
}

/// Whether `(` begins a list of parameters after a name that is left out.
fn opens_parameters(reader: &Reader<'_>, how: Naming) -> bool
    ensures { result ≡ spec.opens_parameters reader.now.text reader.now.tokens how reader.now.state }
{
    may_leave_out(how)
        && (reader.sees_mark_after(1, Mark::RightParen) || reader.begins_specs_after(1))
}

/// `element[size]`, where the size is as high as `size_height`.
fn array(
    alloc: Global,
    place: Place,
    element: FoundDeclarator,
    size: Expression,
    size_height: u32,
) -> Result<FoundDeclarator, AllocError>
    requires low { element.height < u32.MAX }
    requires size_low { size_height < u32.MAX }
    ensures { IfOk result (λ f. f ≡ record { node = Declarator.Array place element.node (Some size); name = element.name; own = element.own; height = max element.height size_height + 1 }) }
{
    let height = element.height.max(size_height) + 1;
    let size = Some(Boxed::new(alloc, size)?);
    let node = Declarator::Array(place, Boxed::new(alloc, element.node)?, size);
    Ok(FoundDeclarator {
        node,
        name: element.name,
        own: element.own,
        height,
    })
}

/// `element[]`
fn open_array(
    alloc: Global,
    place: Place,
    element: FoundDeclarator,
) -> Result<FoundDeclarator, AllocError>
    requires { element.height < u32.MAX }
    ensures { IfOk result (λ f. f ≡ record { node = Declarator.Array place element.node None; name = element.name; own = element.own; height = element.height + 1 }) }
{
    let node = Declarator::Array(place, Boxed::new(alloc, element.node)?, None);
    Ok(FoundDeclarator {
        node,
        name: element.name,
        own: element.own,
        height: element.height + 1,
    })
}

/// `(inner)`
fn parentheses(
    alloc: Global,
    place: Place,
    inner: FoundDeclarator,
) -> Result<FoundDeclarator, AllocError>
    requires { inner.height < u32.MAX }
    ensures { IfOk result (λ f. f ≡ record { node = Declarator.Parentheses place inner.node; name = inner.name; own = inner.own; height = inner.height + 1 }) }
{
    let node = Declarator::Parentheses(place, Boxed::new(alloc, inner.node)?);
    Ok(FoundDeclarator {
        node,
        name: inner.name,
        own: inner.own,
        height: inner.height + 1,
    })
}

/// `*` with qualifiers, before a declarator.
fn pointer(
    alloc: Global,
    place: Place,
    qualifiers: Items<Qualifier>,
    inner: FoundDeclarator,
) -> Result<FoundDeclarator, AllocError>
    requires { inner.height < u32.MAX }
    ensures { IfOk result (λ f. f ≡ record { node = Declarator.Pointer place qualifiers inner.node; name = inner.name; own = inner.own; height = inner.height + 1 }) }
{
    let node = Declarator::Pointer(place, qualifiers, Boxed::new(alloc, inner.node)?);
    Ok(FoundDeclarator {
        node,
        name: inner.name,
        own: inner.own,
        height: inner.height + 1,
    })
}

impl<
    E: Fn(Global, &mut Reader<'_>, u32, Level) -> Result<FoundExpression, ParseError> + Copy,
    S: Fn(Global, &mut Reader<'_>, u32) -> Result<FoundSpecs, ParseError> + Copy,
    D: Fn(Global, &mut Reader<'_>, u32, Naming) -> Result<FoundDeclarator, ParseError> + Copy,
> Declaring<E, S, D> {
    /// At a name, which is the declarator's unless it has none.
    fn name_or_nothing(
        &self,
        reader: &mut Reader<'_>,
        how: Naming,
    ) -> Result<FoundDeclarator, ParseError>
        requires within { reader.old.state.at < length reader.old.tokens }
        requires name { kind_at reader.old.tokens reader.old.state.at ≡ Some kind.Name }
        ensures reads { Reads (λ text ts. spec.name_or_nothing text ts self.now.depth how) reader.old (spelled_found reader.old.texts result) reader.new }
        ensures spelled { IfOk result (HasSpelling reader.old.texts) }
    {
        match how {
            Naming::NotNamed => no_name(reader, how),
            Naming::Named | Naming::NamedOrNot => self.name_here(reader),
        }
    }

    /// The name that is declared.
    fn name_here(&self, reader: &mut Reader<'_>) -> Result<FoundDeclarator, ParseError>
        requires within { reader.old.state.at < length reader.old.tokens }
        requires name { kind_at reader.old.tokens reader.old.state.at ≡ Some kind.Name }
        ensures reads { Reads (λ text ts. spec.name_here text ts self.now.depth) reader.old (spelled_found reader.old.texts result) reader.new }
        ensures spelled { IfOk result (HasSpelling reader.old.texts) }
    {
        if self.depth == 0 {
            return Err(reader.refuse());
        }
        let node = Declarator::Name(reader.place());
        let name = reader.name_after(0);
        reader.pass(1);
        Ok(FoundDeclarator {
            node,
            name: Some(name),
            own: None,
            height: 1,
        })
    }

    /// `(inner)`
    #[tactic(auto, using(crate::proofs::Spellings::same_names), unfolding(grammar_descent::specs::DeclaratorSteps::parentheses_here))]
    fn parentheses_here(
        &self,
        reader: &mut Reader<'_>,
        how: Naming,
    ) -> Result<FoundDeclarator, ParseError>
        requires nests { NestsBelow self.now.depth (E.pre self.now.expression) (E.post self.now.expression) (S.pre self.now.specs) (S.post self.now.specs) (D.pre self.now.declarator) (D.post self.now.declarator) }
        requires within { reader.old.state.at < length reader.old.tokens }
        ensures reads { Reads (λ text ts. spec.parentheses_here text ts (below text ts self.now.depth) how) reader.old (spelled_found reader.old.texts result) reader.new }
        ensures spelled { IfOk result (HasSpelling reader.old.texts) }
    {
        if self.depth == 0 {
            return Err(reader.refuse());
        }
        let place = reader.place();
        reader.pass(1);
        let inner = self.inner_declarator(reader, how)?;
        reader.expect(Mark::RightParen)?;
        Ok(parentheses(self.alloc, place, inner)?)
    }

    /// `*` with qualifiers, and all the rest.
    #[tactic(auto, using(crate::proofs::Spellings::same_names), unfolding(grammar_descent::specs::DeclaratorSteps::pointer_here))]
    fn pointer_here(
        &self,
        reader: &mut Reader<'_>,
        how: Naming,
    ) -> Result<FoundDeclarator, ParseError>
        requires nests { NestsBelow self.now.depth (E.pre self.now.expression) (E.post self.now.expression) (S.pre self.now.specs) (S.post self.now.specs) (D.pre self.now.declarator) (D.post self.now.declarator) }
        requires within { reader.old.state.at < length reader.old.tokens }
        ensures reads { Reads (λ text ts. spec.pointer_here text ts (below text ts self.now.depth) how) reader.old (spelled_found reader.old.texts result) reader.new }
        ensures spelled { IfOk result (HasSpelling reader.old.texts) }
    {
        if self.depth == 0 {
            return Err(reader.refuse());
        }
        let place = reader.place();
        reader.pass(1);
        let qualifiers = qualifiers(self.alloc, reader)?;
        let inner = self.inner_declarator(reader, how)?;
        Ok(pointer(self.alloc, place, qualifiers, inner)?)
    }

    /// What brackets and parameters may follow.
    #[tactic(auto, using(crate::proofs::Parts::name_there), unfolding(grammar_descent::specs::DeclaratorSteps::innermost))]
    fn innermost(&self, reader: &mut Reader<'_>, how: Naming) -> Result<FoundDeclarator, ParseError>
        requires nests { NestsBelow self.now.depth (E.pre self.now.expression) (E.post self.now.expression) (S.pre self.now.specs) (S.post self.now.specs) (D.pre self.now.declarator) (D.post self.now.declarator) }
        ensures reads { Reads (λ text ts. spec.innermost text ts (below text ts self.now.depth) self.now.depth how) reader.old (spelled_found reader.old.texts result) reader.new }
        ensures spelled { IfOk result (HasSpelling reader.old.texts) }
    {
        if reader.sees(Kind::Name) {
            self.name_or_nothing(reader, how)
        } else if reader.sees_mark(Mark::LeftParen) {
            if opens_parameters(reader, how) {
                no_name(reader, how)
            } else {
                self.parentheses_here(reader, how)
            }
        } else {
            no_name(reader, how)
        }
    }

    /// `[ ]` or `[ size ]` after the declarator that begins at `start`.
    #[tactic(auto, using(crate::proofs::Spellings::same_names), unfolding(grammar_descent::specs::DeclaratorSteps::array_after))]
    fn array_after(
        &self,
        reader: &mut Reader<'_>,
        start: usize,
        element: FoundDeclarator,
    ) -> Result<FoundDeclarator, ParseError>
        requires nests { NestsBelow self.now.depth (E.pre self.now.expression) (E.post self.now.expression) (S.pre self.now.specs) (S.post self.now.specs) (D.pre self.now.declarator) (D.post self.now.declarator) }
        requires within { reader.old.state.at < length reader.old.tokens }
        requires start { start ≤ max_tokens }
        requires spelled { HasSpelling reader.old.texts element }
        ensures reads { Reads (λ text ts. spec.array_after text ts (below text ts self.now.depth) self.now.depth start (spelled_declarator reader.old.texts element)) reader.old (spelled_found reader.old.texts result) reader.new }
        ensures spelled { IfOk result (HasSpelling reader.old.texts) }
    {
        if element.height >= self.depth {
            return Err(reader.refuse());
        }
        let place = reader.place_at(start);
        if reader.sees_mark_after(1, Mark::RightBracket) {
            reader.pass(2);
            return Ok(open_array(self.alloc, place, element)?);
        }
        reader.pass(1);
        let (size, height) = self.inner_expression(reader)?;
        reader.expect(Mark::RightBracket)?;
        Ok(array(self.alloc, place, element, size, height)?)
    }

    /// All brackets and parameters after it.
    #[tactic(auto, using(crate::proofs::Spellings::in_texts))]
    fn parts_after(
        &self,
        reader: &mut Reader<'_>,
        start: usize,
        mut found: FoundDeclarator,
    ) -> Result<FoundDeclarator, ParseError>
        requires nests { NestsBelow self.now.depth (E.pre self.now.expression) (E.post self.now.expression) (S.pre self.now.specs) (S.post self.now.specs) (D.pre self.now.declarator) (D.post self.now.declarator) }
        requires start { start ≤ max_tokens }
        requires spelled { HasSpelling reader.old.texts found }
        ensures reads { Reads (λ text ts. spec.parts_after text ts (below text ts self.now.depth) self.now.depth start self.now.depth (spelled_declarator reader.old.texts found)) reader.old (spelled_found reader.old.texts result) reader.new }
        ensures spelled { IfOk result (HasSpelling reader.old.texts) }
    {
        for _turn in 0..self.depth {
            let Some(part) = next_part(reader) else {
                return Ok(found);
            };
            found = self.part_after(reader, start, part, found)?;
        }
        Ok(found)
    }

    /// The brackets or the parameters that stand next, after the declarator that begins at `start`.
    fn part_after(
        &self,
        reader: &mut Reader<'_>,
        start: usize,
        part: Part,
        found: FoundDeclarator,
    ) -> Result<FoundDeclarator, ParseError>
        requires nests { NestsBelow self.now.depth (E.pre self.now.expression) (E.post self.now.expression) (S.pre self.now.specs) (S.post self.now.specs) (D.pre self.now.declarator) (D.post self.now.declarator) }
        requires within { reader.old.state.at < length reader.old.tokens }
        requires start { start ≤ max_tokens }
        requires spelled { HasSpelling reader.old.texts found }
        ensures reads { Reads (λ text ts. part_after part text ts (below text ts self.now.depth) self.now.depth start (spelled_declarator reader.old.texts found)) reader.old (spelled_found reader.old.texts result) reader.new }
        ensures spelled { IfOk result (HasSpelling reader.old.texts) }
    {
        match part {
            Part::Array => self.array_after(reader, start, found),
            Part::Function => self.function_after(reader, start, found),
        }
    }

    /// A declarator that is nested no deeper than this depth.
    #[tactic(auto, using(crate::proofs::Spellings::in_texts), unfolding(grammar_descent::specs::DeclaratorSteps::declarator))]
    fn declarator_step(
        &self,
        reader: &mut Reader<'_>,
        how: Naming,
    ) -> Result<FoundDeclarator, ParseError>
        requires { NestsBelow self.now.depth (E.pre self.now.expression) (E.post self.now.expression) (S.pre self.now.specs) (S.post self.now.specs) (D.pre self.now.declarator) (D.post self.now.declarator) }
        ensures reads { Reads (λ text ts. spec.declarator text ts (below text ts self.now.depth) self.now.depth how) reader.old (spelled_found reader.old.texts result) reader.new }
        ensures spelled { IfOk result (HasSpelling reader.old.texts) }
    {
        if reader.sees_mark(Mark::Star) {
            return self.pointer_here(reader, how);
        }
        let start = reader.at();
        let found = self.innermost(reader, how)?;
        self.parts_after(reader, start, found)
    }

    /// The same, with the name that it declares. Its first token is refused where no depth is left for the name that it needs.
    pub fn read_declarator(
        &self,
        reader: &mut Reader<'_>,
        how: Naming,
    ) -> Result<FoundDeclarator, ParseError>
        requires { NestsBelow self.now.depth (E.pre self.now.expression) (E.post self.now.expression) (S.pre self.now.specs) (S.post self.now.specs) (D.pre self.now.declarator) (D.post self.now.declarator) }
        ensures { ReadsDeclarator (λ text ts. (readers text ts self.now.depth).declarator how) reader.old result reader.new }
    {
        let too_deep = self.depth == 1 && !may_leave_out(how) && opens_declarator(reader);
        let start = too_deep.then_some(reader.at() as u32);
        let found = self.declarator_step(reader, how);
        refused_at(found, start)
    }
}

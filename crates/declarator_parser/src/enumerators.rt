//! Enumeration constants (C11 6.7.2.2).

ghost use Rattle.std.specs.Prelude.{◌≡◌, ◌<◌, ◌≤◌, ◌+◌, ◌&&◌, true, [], Some, None, length, IfOk};
ghost use Rattle.c_tokens.specs.declared.kind.Kind.TheVariants as kind;
ghost use Rattle.c_tokens.specs.declared.kind.Mark.TheVariants as mark;
ghost use Rattle.c_tokens.specs.Limits.{max_tokens};
ghost use Rattle.grammar_descent.specs.AllReaders.{readers};
ghost use Rattle.grammar_descent.specs.Reading as reading;
ghost use Rattle.grammar_descent.specs.SpecifierSteps as spec;
ghost use Rattle.declarator_parser.specs.Below.{NestsBelow};
ghost use Rattle.token_reader.specs.Input.{Reads};
ghost use Rattle.declarator_parser.specs.Lists.{closes};
ghost use Rattle.declarator_parser.specs.Roles.{with_role};

use crate::declaring::Declaring;
use c_grammar::{Enumerator, Expression, Level, NameKind, Naming, Place, Specifier};
use c_tokens::{Kind, Mark};
use sqlite_items::{Boxed, Items};
use std::alloc::{AllocError, Global};
use token_reader::{FoundDeclarator, FoundExpression, FoundSpecs, ParseError, Reader};

fn enumerator(alloc: Global, place: Place, value: Expression) -> Result<Enumerator, AllocError>
    ensures { IfOk result (λ node. node ≡ record { place = place; value = Some value }) }
{
    Ok(Enumerator {
        place,
        value: Some(Boxed::new(alloc, value)?),
    })
}

/// Whether another constant stands after a comma.
fn goes_on(reader: &Reader<'_>) -> bool
    ensures value { result ≡ (reading.mark_at reader.now.tokens reader.now.state.at mark.Comma && reading.sees reader.now.tokens (reader.now.state.at + 1) kind.Name) }
    ensures within { result ≡ true → reader.now.state.at < length reader.now.tokens }
{
    reader.sees_mark(Mark::Comma) && reader.sees_name_after(1)
}

/// The brace that closes a list, with or without a comma before it.
#[tactic(auto, unfolding(grammar_descent::specs::SpecifierSteps::closing_at))]
fn close_list(reader: &mut Reader<'_>) -> Result<(), ParseError>
    ensures { Reads closes reader.old result reader.new }
{
    if reader.sees_mark(Mark::RightBrace) {
        reader.pass(1);
        return Ok(());
    }
    reader.expect(Mark::Comma)?;
    reader.expect(Mark::RightBrace)
}

impl<
    E: Fn(Global, &mut Reader<'_>, u32, Level) -> Result<FoundExpression, ParseError> + Copy,
    S: Fn(Global, &mut Reader<'_>, u32) -> Result<FoundSpecs, ParseError> + Copy,
    D: Fn(Global, &mut Reader<'_>, u32, Naming) -> Result<FoundDeclarator, ParseError> + Copy,
> Declaring<E, S, D> {
    /// A constant, which is in scope after its enumerator (C11 6.2.1p7).
    #[tactic(auto, using(crate::proofs::Parts::name_there), unfolding(grammar_descent::specs::SpecifierSteps::enumerator_at))]
    fn enumerator(&self, reader: &mut Reader<'_>) -> Result<(Enumerator, u32), ParseError>
        requires { NestsBelow self.now.depth (E.pre self.now.expression) (E.post self.now.expression) (S.pre self.now.specs) (S.post self.now.specs) (D.pre self.now.declarator) (D.post self.now.declarator) }
        ensures reads { Reads (λ text ts. spec.enumerator_at text ts (readers text ts self.now.depth).expression) reader.old result reader.new }
        ensures low { IfOk result (λ found. found.1 ≤ self.now.depth) }
    {
        if !reader.sees(Kind::Name) {
            return Err(reader.refuse());
        }
        let place = reader.place();
        let name = reader.name_after(0);
        if !reader.sees_mark_after(1, Mark::Equal) {
            reader.pass(1);
            reader.declare(name, NameKind::Ordinary)?;
            return Ok((Enumerator { place, value: None }, 0));
        }
        reader.pass(2);
        let (value, height) = self.value(reader)?;
        let node = enumerator(self.alloc, place, value)?;
        reader.declare(name, NameKind::Ordinary)?;
        Ok((node, height))
    }

    fn enumerators(&self, reader: &mut Reader<'_>) -> Result<(Items<Enumerator>, u32), ParseError>
        requires { NestsBelow self.now.depth (E.pre self.now.expression) (E.post self.now.expression) (S.pre self.now.specs) (S.post self.now.specs) (D.pre self.now.declarator) (D.post self.now.declarator) }
        ensures reads { Reads (λ text ts. spec.enumerators text ts (readers text ts self.now.depth).expression (length ts) [] 0) reader.old result reader.new }
        ensures low { IfOk result (λ found. found.1 ≤ self.now.depth) }
    {
        let mut found = Items::new(self.alloc);
        let mut high = 0;
        for _turn in 0..reader.tokens_len() {
            let (enumerator, height) = self.enumerator(reader)?;
            found.push(enumerator)?;
            high = high.max(height);
            if !goes_on(reader) {
                return Ok((found, high));
            }
            reader.pass(1);
        }
        Err(reader.refuse())
    }

    #[tactic(auto, unfolding(grammar_descent::specs::SpecifierSteps::enumerators_after))]
    fn enumerators_after(
        &self,
        reader: &mut Reader<'_>,
        tag: Option<u32>,
        start: usize,
    ) -> Result<(Specifier, u32), ParseError>
        requires nests { NestsBelow self.now.depth (E.pre self.now.expression) (E.post self.now.expression) (S.pre self.now.specs) (S.post self.now.specs) (D.pre self.now.declarator) (D.post self.now.declarator) }
        requires start { start ≤ max_tokens }
        ensures { Reads (λ text ts. spec.enumerators_after text ts (readers text ts self.now.depth).expression tag start) reader.old (with_role result) reader.new }
    {
        let place = reader.place_at(start);
        let (all, height) = self.enumerators(reader)?;
        close_list(reader)?;
        Ok((Specifier::Enumerators(place, tag, all), height))
    }

    /// `enum`, with a name, a list of constants, or both.
    #[tactic(auto, unfolding(grammar_descent::specs::SpecifierSteps::enumeration_here, grammar_descent::specs::SpecifierSteps::optional_name))]
    pub fn enumeration(&self, reader: &mut Reader<'_>) -> Result<(Specifier, u32), ParseError>
        requires nests { NestsBelow self.now.depth (E.pre self.now.expression) (E.post self.now.expression) (S.pre self.now.specs) (S.post self.now.specs) (D.pre self.now.declarator) (D.post self.now.declarator) }
        requires within { reader.old.state.at < length reader.old.tokens }
        ensures { Reads (λ text ts. spec.enumeration_here text ts (readers text ts self.now.depth).expression) reader.old (with_role result) reader.new }
    {
        let start = reader.at();
        if !reader.sees_name_after(1) {
            reader.pass(1);
            reader.expect(Mark::LeftBrace)?;
            return self.enumerators_after(reader, None, start);
        }
        let place = reader.place();
        let name = (start + 1) as u32;
        let has_list = reader.sees_mark_after(2, Mark::LeftBrace);
        reader.pass(2);
        if !has_list {
            return Ok((Specifier::EnumTag(place, name), 0));
        }
        reader.pass(1);
        self.enumerators_after(reader, Some(name), start)
    }
}

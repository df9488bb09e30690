//! Members of structs and unions (C11 6.7.2.1).

ghost use Rattle.std.specs.Prelude.{◌≡◌, ◌<◌, ◌≤◌, ◌+◌, [], length, IfOk};
ghost use Rattle.c_tokens.specs.Limits.{max_tokens};
ghost use Rattle.grammar_descent.specs.SpecifierSteps as spec;
ghost use Rattle.declarator_parser.specs.Below.{below, NestsBelow};
ghost use Rattle.token_reader.specs.Input.{Reads};
ghost use Rattle.declarator_parser.specs.Lists.{braced_members};
ghost use Rattle.declarator_parser.specs.Roles.{with_role};

use crate::declaring::Declaring;
use c_grammar::{Aggregate, Declarator, Level, Member, Naming, Specifier};
use c_tokens::Mark;
use sqlite_items::Items;
use std::alloc::Global;
use token_reader::{FoundDeclarator, FoundExpression, FoundSpecs, ParseError, Reader, refused_at};

impl<
    E: Fn(Global, &mut Reader<'_>, u32, Level) -> Result<FoundExpression, ParseError> + Copy,
    S: Fn(Global, &mut Reader<'_>, u32) -> Result<FoundSpecs, ParseError> + Copy,
    D: Fn(Global, &mut Reader<'_>, u32, Naming) -> Result<FoundDeclarator, ParseError> + Copy,
> Declaring<E, S, D> {
    /// Declarators with commas between them.
    fn member_declarators(
        &self,
        reader: &mut Reader<'_>,
    ) -> Result<(Items<Declarator>, u32), ParseError>
        requires nests { NestsBelow self.now.depth (E.pre self.now.expression) (E.post self.now.expression) (S.pre self.now.specs) (S.post self.now.specs) (D.pre self.now.declarator) (D.post self.now.declarator) }
        requires some { 0 < self.now.depth }
        ensures reads { Reads (λ text ts. spec.declarators text ts (below text ts self.now.depth) (length ts) [] 0) reader.old result reader.new }
        ensures low { IfOk result (λ found. found.1 < self.now.depth) }
    {
        let mut found = Items::new(self.alloc);
        let mut high = 0;
        for _turn in 0..reader.tokens_len() {
            let declared = self.inner_declarator(reader, Naming::Named)?;
            high = high.max(declared.height);
            found.push(declared.node)?;
            if !reader.sees_mark(Mark::Comma) {
                return Ok((found, high));
            }
            reader.pass(1);
        }
        Err(reader.refuse())
    }

    #[tactic(auto, unfolding(grammar_descent::specs::SpecifierSteps::member_at))]
    fn member(&self, reader: &mut Reader<'_>) -> Result<(Member, u32), ParseError>
        requires nests { NestsBelow self.now.depth (E.pre self.now.expression) (E.post self.now.expression) (S.pre self.now.specs) (S.post self.now.specs) (D.pre self.now.declarator) (D.post self.now.declarator) }
        requires some { 0 < self.now.depth }
        ensures reads { Reads (λ text ts. spec.member_at text ts (below text ts self.now.depth)) reader.old result reader.new }
        ensures low { IfOk result (λ found. found.1 < self.now.depth) }
    {
        let place = reader.place();
        let specs = self.inner_specs(reader)?;
        let (declarators, height) = self.member_declarators(reader)?;
        reader.expect(Mark::Semicolon)?;
        let member = Member {
            place,
            specs: specs.node,
            declarators,
        };
        Ok((member, specs.height.max(height)))
    }

    /// Up to the closing brace, one at least.
    fn members(&self, reader: &mut Reader<'_>) -> Result<(Items<Member>, u32), ParseError>
        requires nests { NestsBelow self.now.depth (E.pre self.now.expression) (E.post self.now.expression) (S.pre self.now.specs) (S.post self.now.specs) (D.pre self.now.declarator) (D.post self.now.declarator) }
        requires some { 0 < self.now.depth }
        ensures reads { Reads (λ text ts. spec.members text ts (below text ts self.now.depth) (length ts) [] 0) reader.old result reader.new }
        ensures low { IfOk result (λ found. found.1 < self.now.depth) }
    {
        let mut found = Items::new(self.alloc);
        let mut high = 0;
        for _turn in 0..reader.tokens_len() {
            let (member, height) = self.member(reader)?;
            found.push(member)?;
            high = high.max(height);
            if reader.sees_mark(Mark::RightBrace) {
                return Ok((found, high));
            }
        }
        Err(reader.refuse())
    }

    /// The list of members of the specifier that begins at `start`.
    #[tactic(auto, unfolding(grammar_descent::specs::SpecifierSteps::members_after))]
    fn members_after(
        &self,
        reader: &mut Reader<'_>,
        which: Aggregate,
        tag: Option<u32>,
        start: usize,
    ) -> Result<(Specifier, u32), ParseError>
        requires nests { NestsBelow self.now.depth (E.pre self.now.expression) (E.post self.now.expression) (S.pre self.now.specs) (S.post self.now.specs) (D.pre self.now.declarator) (D.post self.now.declarator) }
        requires some { 0 < self.now.depth }
        requires start { start ≤ max_tokens }
        ensures { Reads (λ text ts. spec.members_after text ts (below text ts self.now.depth) which tag start) reader.old (with_role result) reader.new }
    {
        let place = reader.place_at(start);
        let (all, height) = self.members(reader)?;
        reader.expect(Mark::RightBrace)?;
        Ok((Specifier::Members(place, which, tag, all), height + 1))
    }

    /// The same with the brace that opens it, which is refused where no depth is left for a member's name.
    #[tactic(auto, using(crate::proofs::SpecifierRefusals::same_specifier))]
    pub fn braced_members(
        &self,
        reader: &mut Reader<'_>,
        which: Aggregate,
        tag: Option<u32>,
        start: usize,
    ) -> Result<(Specifier, u32), ParseError>
        requires nests { NestsBelow self.now.depth (E.pre self.now.expression) (E.post self.now.expression) (S.pre self.now.specs) (S.post self.now.specs) (D.pre self.now.declarator) (D.post self.now.declarator) }
        requires start { start ≤ max_tokens }
        ensures { Reads (λ text ts. braced_members text ts (below text ts self.now.depth) which tag start) reader.old (with_role result) reader.new }
    {
        if self.depth == 0 {
            return Err(reader.refuse());
        }
        let brace = (self.depth == 1).then_some(reader.at() as u32);
        reader.expect(Mark::LeftBrace)?;
        let found = self.members_after(reader, which, tag, start);
        refused_at(found, brace)
    }
}

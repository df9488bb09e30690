//! Declaration specifiers, read by descent (C11 6.7.1 to 6.7.4).

ghost use Rattle.std.specs.Prelude.{◌≡◌, ◌<◌, ◌≤◌, ◌+◌, [], length, IfOk};
ghost use Rattle.grammar_descent.specs.AllReaders.{readers};
ghost use Rattle.grammar_descent.specs.SpecifierSteps as spec;
ghost use Rattle.declarator_parser.specs.Below.{below, NestsBelow};
ghost use Rattle.token_reader.specs.Input.{Reads};
ghost use Rattle.declarator_parser.specs.WithRoles.{ReadsSpecs};
ghost use Rattle.declarator_parser.specs.Leads.{one_lead};
ghost use Rattle.token_reader.specs.Nests.{with_kind};
ghost use Rattle.declarator_parser.specs.Roles.{with_role, with_roles};

use crate::declaring::Declaring;
use crate::leads::{Lead, next_lead};
use crate::type_words::{declared_kind, holds_one_type};
use crate::wrong_words::{first_wrong, first_wrong_with_type};
use c_grammar::{Aggregate, Level, Naming, Specifier, Specs};
use c_tokens::Mark;
use sqlite_items::Items;
use std::alloc::Global;
use token_reader::{FoundDeclarator, FoundExpression, FoundSpecs, ParseError, Reader, refused_at};

impl<
    E: Fn(Global, &mut Reader<'_>, u32, Level) -> Result<FoundExpression, ParseError> + Copy,
    S: Fn(Global, &mut Reader<'_>, u32) -> Result<FoundSpecs, ParseError> + Copy,
    D: Fn(Global, &mut Reader<'_>, u32, Naming) -> Result<FoundDeclarator, ParseError> + Copy,
> Declaring<E, S, D> {
    /// `struct` or `union`, with a name, a list of members, or both.
    #[tactic(auto, unfolding(grammar_descent::specs::SpecifierSteps::aggregate_here, grammar_descent::specs::SpecifierSteps::optional_name))]
    fn aggregate(
        &self,
        reader: &mut Reader<'_>,
        which: Aggregate,
    ) -> Result<(Specifier, u32), ParseError>
        requires nests { NestsBelow self.now.depth (E.pre self.now.expression) (E.post self.now.expression) (S.pre self.now.specs) (S.post self.now.specs) (D.pre self.now.declarator) (D.post self.now.declarator) }
        requires within { reader.old.state.at < length reader.old.tokens }
        ensures { Reads (λ text ts. spec.aggregate_here text ts (below text ts self.now.depth) which) reader.old (with_role result) reader.new }
    {
        let start = reader.at();
        if !reader.sees_name_after(1) {
            reader.pass(1);
            return self.braced_members(reader, which, None, start);
        }
        let place = reader.place();
        let name = (start + 1) as u32;
        reader.pass(2);
        if reader.sees_mark(Mark::LeftBrace) {
            self.braced_members(reader, which, Some(name), start)
        } else {
            Ok((Specifier::Tag(place, which, name), 0))
        }
    }

    fn one_specifier(
        &self,
        reader: &mut Reader<'_>,
        lead: Lead,
    ) -> Result<(Specifier, u32), ParseError>
        requires nests { NestsBelow self.now.depth (E.pre self.now.expression) (E.post self.now.expression) (S.pre self.now.specs) (S.post self.now.specs) (D.pre self.now.declarator) (D.post self.now.declarator) }
        requires within { reader.old.state.at < length reader.old.tokens }
        ensures reads { Reads (λ text ts. spec.one_specifier text ts (readers text ts self.now.depth).expression (below text ts self.now.depth) (one_lead lead)) reader.old (with_role result) reader.new }
    {
        let place = reader.place();
        match lead {
            Lead::Storage(which) => {
                reader.pass(1);
                Ok((Specifier::Storage(place, which), 0))
            }
            Lead::Qualifier(which) => {
                reader.pass(1);
                Ok((Specifier::Qualifier(place, which), 0))
            }
            Lead::Basic(which) => {
                reader.pass(1);
                Ok((Specifier::Basic(place, which), 0))
            }
            Lead::Aggregate(which) => self.aggregate(reader, which),
            Lead::Enumeration => self.enumeration(reader),
            Lead::TypedefName => {
                reader.pass(1);
                Ok((Specifier::TypedefName(place), 0))
            }
        }
    }

    /// The next specifier. Where it is refused, and no type may stand after the earlier ones, the first wrong word is refused.
    #[tactic(auto, using(crate::proofs::SpecifierRefusals::same_specifier))]
    fn next_specifier(
        &self,
        reader: &mut Reader<'_>,
        lead: Lead,
        earlier: &[Specifier],
    ) -> Result<(Specifier, u32), ParseError>
        requires nests { NestsBelow self.now.depth (E.pre self.now.expression) (E.post self.now.expression) (S.pre self.now.specs) (S.post self.now.specs) (D.pre self.now.declarator) (D.post self.now.declarator) }
        requires within { reader.old.state.at < length reader.old.tokens }
        ensures reads { Reads (λ text ts. spec.one_specifier text ts (readers text ts self.now.depth).expression (below text ts self.now.depth) (one_lead lead)) reader.old (with_role result) reader.new }
    {
        let start = reader.at() as u32;
        let found = self.one_specifier(reader, lead);
        let wrong = if found.is_err() {
            first_wrong_with_type(earlier, start)
        } else {
            None
        };
        refused_at(found, wrong)
    }

    /// As many as there are.
    fn specifiers(&self, reader: &mut Reader<'_>) -> Result<(Items<Specifier>, u32), ParseError>
        requires { NestsBelow self.now.depth (E.pre self.now.expression) (E.post self.now.expression) (S.pre self.now.specs) (S.post self.now.specs) (D.pre self.now.declarator) (D.post self.now.declarator) }
        ensures { Reads (λ text ts. spec.specifiers text ts (readers text ts self.now.depth).expression (below text ts self.now.depth) (length ts) [] [] 0) reader.old (with_roles result) reader.new }
    {
        let mut found = Items::new(self.alloc);
        let mut high = 0;
        for _turn in 0..reader.tokens_len() {
            let Some(lead) = next_lead(reader, found.as_slice()) else {
                return Ok((found, high));
            };
            let (specifier, height) = self.next_specifier(reader, lead, found.as_slice())?;
            found.push(specifier)?;
            high = high.max(height);
        }
        Ok((found, high))
    }

    /// Specifiers that are nested no deeper than this depth.
    #[tactic(auto, unfolding(grammar_descent::specs::SpecifierSteps::specs))]
    fn specs_step(&self, reader: &mut Reader<'_>) -> Result<FoundSpecs, ParseError>
        requires { NestsBelow self.now.depth (E.pre self.now.expression) (E.post self.now.expression) (S.pre self.now.specs) (S.post self.now.specs) (D.pre self.now.declarator) (D.post self.now.declarator) }
        ensures { ReadsSpecs (λ text ts. spec.specs text ts (readers text ts self.now.depth).expression (below text ts self.now.depth)) reader.old result reader.new }
    {
        let place = reader.place();
        let (words, height) = self.specifiers(reader)?;
        if !holds_one_type(words.as_slice()) {
            let wrong = first_wrong(words.as_slice(), reader.at() as u32);
            return Err(ParseError::Syntax(wrong));
        }
        let kind = declared_kind(words.as_slice());
        let node = Specs { place, words };
        Ok(FoundSpecs { node, kind, height })
    }

    /// Specifiers that are nested no deeper than this depth, with what they declare a name as.
    pub fn read_specs(&self, reader: &mut Reader<'_>) -> Result<FoundSpecs, ParseError>
        requires { NestsBelow self.now.depth (E.pre self.now.expression) (E.post self.now.expression) (S.pre self.now.specs) (S.post self.now.specs) (D.pre self.now.declarator) (D.post self.now.declarator) }
        ensures { Reads (λ text ts. with_kind (readers text ts self.now.depth).specs) reader.old result reader.new }
    {
        self.specs_step(reader)
    }
}

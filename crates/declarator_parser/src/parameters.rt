//! Lists of parameters (C11 6.7.6.3).

ghost use Rattle.std.specs.Prelude.{◌≡◌, ◌<◌, ◌≤◌, ◌+◌, [], Some, max, option_map, length, IfOk, OnOk, IfSome};
ghost use Rattle.c_tokens.specs.Limits.{max_tokens};
ghost use Rattle.grammar_descent.specs.DeclaratorSteps as spec;
ghost use Rattle.grammar_descent.specs.Exact.{Grows};
ghost use Rattle.declarator_parser.specs.Below.{below, NestsBelow};
ghost use Rattle.token_reader.specs.Input.{Reads};
ghost use Rattle.token_reader.specs.Found.{spelled_declarator, spelled_found, HasSpelling};
ghost use Rattle.token_reader.specs.Reader.{moved, IsSameText};
ghost use Rattle.token_texts.specs.Texts.{name_of};
ghost use Rattle.declarator_parser.specs.Parts.{names_of_first};

use crate::declaring::Declaring;
use c_grammar::{Declarator, Level, NameKind, Naming, Parameter, Place};
use c_tokens::{Keyword, Mark};
use sqlite_items::{Boxed, Items};
use std::alloc::{AllocError, Global};
use token_reader::{
    FoundDeclarator, FoundExpression, FoundSpecs, ParameterNames, ParseError, Reader,
};

/// What the first list of parameters after a name declares.
fn first_names(earlier: Option<ParameterNames>, own: ParameterNames) -> ParameterNames
    ensures { result ≡ names_of_first earlier own }
{
    match earlier {
        Some(earlier) => earlier,
        None => own,
    }
}

/// `returned(parameters)`, where the parameters are as high as `high` and declare these names.
fn function(
    alloc: Global,
    place: Place,
    returned: FoundDeclarator,
    parameters: Items<Parameter>,
    high: u32,
    declared: ParameterNames,
) -> Result<FoundDeclarator, AllocError>
    requires low { returned.height < u32.MAX }
    requires parameters_low { high < u32.MAX }
    ensures { IfOk result (λ f. f ≡ record { node = Declarator.Function place returned.node parameters; name = returned.name; own = Some (names_of_first returned.own declared); height = max returned.height high + 1 }) }
{
    let height = returned.height.max(high) + 1;
    let node = Declarator::Function(place, Boxed::new(alloc, returned.node)?, parameters);
    Ok(FoundDeclarator {
        node,
        name: returned.name,
        own: Some(first_names(returned.own, declared)),
        height,
    })
}

/// The name of a parameter is in scope after it.
fn declare_parameter(reader: &mut Reader<'_>, name: Option<u32>) -> Result<(), AllocError>
    requires { IfSome name (λ n. n < length reader.old.texts.names) }
    ensures ok { OnOk result (reader.new ≡ moved reader.old (spec.with_parameter (option_map (name_of reader.old.texts) name) reader.old.state)) }
    ensures kept { IsSameText reader.old reader.new }
{
    match name {
        Some(name) => reader.declare(name, NameKind::Ordinary),
        None => Ok(()),
    }
}

impl<
    E: Fn(Global, &mut Reader<'_>, u32, Level) -> Result<FoundExpression, ParseError> + Copy,
    S: Fn(Global, &mut Reader<'_>, u32) -> Result<FoundSpecs, ParseError> + Copy,
    D: Fn(Global, &mut Reader<'_>, u32, Naming) -> Result<FoundDeclarator, ParseError> + Copy,
> Declaring<E, S, D> {
    #[tactic(auto, using(crate::proofs::Parts::grows_on, crate::proofs::Parts::grows_moved), unfolding(grammar_descent::specs::DeclaratorSteps::parameter_at))]
    fn parameter(&self, reader: &mut Reader<'_>) -> Result<(Parameter, u32), ParseError>
        requires { NestsBelow self.now.depth (E.pre self.now.expression) (E.post self.now.expression) (S.pre self.now.specs) (S.post self.now.specs) (D.pre self.now.declarator) (D.post self.now.declarator) }
        ensures reads { Reads (λ text ts. spec.parameter_at text ts (below text ts self.now.depth)) reader.old result reader.new }
        ensures low { IfOk result (λ found. found.1 < self.now.depth) }
        ensures grows { OnOk result (Grows reader.old.state.scope reader.new.state.scope) }
    {
        let place = reader.place();
        let specs = self.inner_specs(reader)?;
        let declared = self.inner_declarator(reader, Naming::NamedOrNot)?;
        declare_parameter(reader, declared.name)?;
        let parameter = Parameter {
            place,
            specs: specs.node,
            declarator: declared.node,
        };
        Ok((parameter, specs.height.max(declared.height)))
    }

    /// Parameters with commas between them.
    fn some_parameters(
        &self,
        reader: &mut Reader<'_>,
    ) -> Result<(Items<Parameter>, u32), ParseError>
        requires nests { NestsBelow self.now.depth (E.pre self.now.expression) (E.post self.now.expression) (S.pre self.now.specs) (S.post self.now.specs) (D.pre self.now.declarator) (D.post self.now.declarator) }
        requires some { 0 < self.now.depth }
        ensures reads { Reads (λ text ts. spec.some_parameters text ts (below text ts self.now.depth) (length ts) [] 0) reader.old result reader.new }
        ensures low { IfOk result (λ found. found.1 < self.now.depth) }
        ensures grows { OnOk result (Grows reader.old.state.scope reader.new.state.scope) }
    {
        let mut found = Items::new(self.alloc);
        let mut high = 0;
        for _turn in 0..reader.tokens_len() {
            let (parameter, height) = self.parameter(reader)?;
            found.push(parameter)?;
            high = high.max(height);
            if !reader.sees_mark(Mark::Comma) {
                return Ok((found, high));
            }
            reader.pass(1);
        }
        Err(reader.refuse())
    }

    /// Up to the closing parenthesis.
    #[tactic(auto, using(crate::proofs::Parts::grows_not), unfolding(grammar_descent::specs::DeclaratorSteps::parameters_at))]
    fn parameters(&self, reader: &mut Reader<'_>) -> Result<(Items<Parameter>, u32), ParseError>
        requires nests { NestsBelow self.now.depth (E.pre self.now.expression) (E.post self.now.expression) (S.pre self.now.specs) (S.post self.now.specs) (D.pre self.now.declarator) (D.post self.now.declarator) }
        requires some { 0 < self.now.depth }
        ensures reads { Reads (λ text ts. spec.parameters_at text ts (below text ts self.now.depth)) reader.old result reader.new }
        ensures low { IfOk result (λ found. found.1 < self.now.depth) }
        ensures grows { OnOk result (Grows reader.old.state.scope reader.new.state.scope) }
    {
        if reader.sees_mark(Mark::RightParen) {
            return Ok((Items::new(self.alloc), 0));
        }
        if reader.sees_word(Keyword::Void) && reader.sees_mark_after(1, Mark::RightParen) {
            reader.pass(1);
            return Ok((Items::new(self.alloc), 0));
        }
        self.some_parameters(reader)
    }

    /// `( parameters )` after the declarator that begins at `start`, with whose end their scope ends.
    #[tactic(auto, using(crate::proofs::Parts::taken, crate::proofs::Spellings::first_spelled, crate::proofs::Spellings::names_with_first), unfolding(grammar_descent::specs::DeclaratorSteps::function_after))]
    pub fn function_after(
        &self,
        reader: &mut Reader<'_>,
        start: usize,
        returned: FoundDeclarator,
    ) -> Result<FoundDeclarator, ParseError>
        requires nests { NestsBelow self.now.depth (E.pre self.now.expression) (E.post self.now.expression) (S.pre self.now.specs) (S.post self.now.specs) (D.pre self.now.declarator) (D.post self.now.declarator) }
        requires within { reader.old.state.at < length reader.old.tokens }
        requires start { start ≤ max_tokens }
        requires spelled { HasSpelling reader.old.texts returned }
        ensures reads { Reads (λ text ts. spec.function_after text ts (below text ts self.now.depth) self.now.depth start (spelled_declarator reader.old.texts returned)) reader.old (spelled_found reader.old.texts result) reader.new }
        ensures spelled { IfOk result (HasSpelling reader.old.texts) }
    {
        if returned.height >= self.depth {
            return Err(reader.refuse());
        }
        let place = reader.place_at(start);
        let outside = reader.in_scope();
        reader.pass(1);
        let (parameters, height) = self.parameters(reader)?;
        reader.expect(Mark::RightParen)?;
        let declared = reader.take_since(self.alloc, outside)?;
        Ok(function(self.alloc, place, returned, parameters, height, declared)?)
    }
}

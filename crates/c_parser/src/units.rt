//! Functions, whole texts (C11 6.9), and names of types that stand alone (C11 6.7.7).

ghost use Rattle.std.specs.Prelude.{◌≡◌, ◌<◌, ◌≤◌, ◌+◌, ◌++◌, ℕ, [], map, All, length, IfOk, IfSome, OnOk, MatchResult, IsErrOf, alloc_error, option_map};
ghost use Rattle.c_tokens.specs.Limits.{max_source_bytes, max_tokens};
ghost use Rattle.token_texts.specs.Strings.{HaveStrings};
ghost use Rattle.token_texts.specs.Texts.{AreTextsWith, AreTexts, name_of};
ghost use Rattle.c_grammar.specs.declared.units.TypeName.{TypeName as NameOfType};
ghost use Rattle.c_grammar.specs.declared.units.Unit.{Unit as Tree};
ghost use Rattle.c_grammar.specs.Limits.{max_depth, max_nodes};
ghost use Rattle.c_grammar.specs.Scope.{with_parameters};
ghost use Rattle.c_grammar.specs.Units.{Derives, DerivesTypeName};
ghost use Rattle.grammar_descent.specs.AllReaders.{readers, read_unit, read_type_name};
ghost use Rattle.grammar_descent.specs.UnitSteps as step;
ghost use Rattle.token_reader.specs.Input.{Reads};
ghost use Rattle.token_reader.specs.Reader as spec;
ghost use Rattle.token_reader.specs.Reader.{IsSameText};
ghost use Rattle.token_reader.specs.Scoping.{spelled, AreSpelled};
ghost use Rattle.tree_sizes.specs.Depths.{depth_of_unit, depth_of_type_phrase};
ghost use Rattle.tree_sizes.specs.Sizes.{nodes_of_unit};
ghost use Rattle.c_parser.specs.Answers.{Answers, body_of, phrase_of};
ghost use Rattle.c_parser.specs.Named.{HasSpelling, spelled_named};
ghost use Rattle.c_parser.specs.Refused.{IsRefusedWithin};

use crate::declarations::{NamedDeclarator, init_declarators, named_declarator};
use crate::phrases;
use crate::refused::refused_within;
use crate::statements::block;
use byte_texts::Text;
use c_grammar::{
    Block, Declaration, External, Function, MAX_DEPTH, NameKind, Naming, TypeName, TypePhrase, Unit,
};
use c_tokens::{Mark, Token};
use grammar_descent::law_readers;
use sqlite_items::Items;
use std::alloc::{AllocError, Global};
use token_reader::{ParameterNames, ParseError, Reader};
use token_texts::{TokenTexts, law_texts, texts_with_typedefs, token_texts};
use tree_sizes::{law_depths, law_sizes};

/// The parameters share the scope of the function's block (C11 6.2.1p4).
fn declare_parameters(
    reader: &mut Reader<'_>,
    own: &Option<ParameterNames>,
) -> Result<(), AllocError>
    requires { IfSome own.now (AreSpelled reader.old.texts) }
    ensures ok { OnOk result (reader.new ≡ spec.with_scope reader.old (with_parameters (option_map (spelled reader.old.texts) own.now) reader.old.state.scope)) }
    ensures kept { IsSameText reader.old reader.new }
{
    match own {
        Some(own) => {
            reader.declare_all(own)?;
            Ok(())
        }
        None => Ok(()),
    }
}

/// The block of a function whose declarator was read. The function's name is in scope in it and after it.
fn function_body(
    alloc: Global,
    reader: &mut Reader<'_>,
    kind: NameKind,
    function: &NamedDeclarator,
) -> Result<Block, ParseError>
    requires { HasSpelling reader.old.texts function.now }
    ensures { Reads (λ text ts. body_of text ts (readers text ts) kind (spelled_named reader.old.texts function.now)) reader.old result reader.new }
{
    law_readers();
    reader.declare(function.name, kind)?;
    let count = reader.in_scope();
    declare_parameters(reader, &function.own)?;
    let body = block(alloc, reader, MAX_DEPTH)?;
    reader.close(count);
    Ok(body)
}

/// A declaration or a function.
fn external(alloc: Global, reader: &mut Reader<'_>) -> Result<External, ParseError>
    ensures { Reads (λ text ts. step.external text ts (readers text ts)) reader.old result reader.new }
{
    let place = reader.place();
    let specs = phrases::specs(alloc, reader, MAX_DEPTH)?;
    if reader.sees_mark(Mark::Semicolon) {
        reader.pass(1);
        return Ok(External::Declaration(Declaration {
            place,
            specs: specs.node,
            declarators: Items::new(alloc),
        }));
    }
    let from = reader.at();
    let first = named_declarator(alloc, reader, MAX_DEPTH)?;
    if reader.sees_mark(Mark::LeftBrace) {
        let body = function_body(alloc, reader, specs.kind, &first)?;
        return Ok(External::Function(Function {
            place,
            specs: specs.node,
            declarator: first.node,
            body,
        }));
    }
    let declarators = init_declarators(alloc, reader, MAX_DEPTH, specs.kind, from, first)?;
    Ok(External::Declaration(Declaration {
        place,
        specs: specs.node,
        declarators,
    }))
}

/// All that stands from there on.
fn externals(alloc: Global, reader: &mut Reader<'_>) -> Result<Items<External>, ParseError>
    ensures { Answers result (step.externals reader.old.text reader.old.tokens (readers reader.old.text reader.old.tokens) (length reader.old.tokens + 1) [] reader.old.state) }
{
    let mut found = Items::new(alloc);
    for _turn in 0..reader.tokens_len() + 1 {
        if reader.at() == reader.tokens_len() {
            return Ok(found);
        }
        found.push(external(alloc, reader)?)?;
    }
    Err(reader.refuse())
}

/// The declarations and functions of a unit.
fn unit_items(
    alloc: Global,
    text: &[u8],
    tokens: &[Token],
    texts: &TokenTexts,
) -> Result<Items<External>, ParseError>
    requires few { length tokens.now ≤ max_tokens }
    requires texts { AreTexts text.now tokens.now texts.now }
    ensures answers { Answers result (read_unit text.now tokens.now) }
    ensures within { IsRefusedWithin (length tokens.now) result }
{
    let mut reader = Reader::new(alloc, text, tokens, texts, &[])?;
    let found = externals(alloc, &mut reader);
    refused_within(found, tokens.len() as u32)
}

/// Specifiers and a declarator without a name.
#[tactic(auto, unfolding(grammar_descent::specs::UnitSteps::type_phrase_alone))]
fn type_phrase(alloc: Global, reader: &mut Reader<'_>) -> Result<TypePhrase, ParseError>
    ensures { Reads (λ text ts. step.type_phrase_alone text ts (readers text ts) max_depth) reader.old result reader.new }
{
    let place = reader.place();
    let specs = phrases::specs(alloc, reader, MAX_DEPTH)?;
    let declarator = phrases::declarator(alloc, reader, MAX_DEPTH, Naming::NotNamed)?;
    Ok(TypePhrase {
        place,
        specs: specs.node,
        declarator: declarator.node,
    })
}

/// The phrase, after which no token may stand.
fn whole_phrase(alloc: Global, reader: &mut Reader<'_>) -> Result<TypePhrase, ParseError>
    ensures { Answers result (phrase_of reader.old.text reader.old.tokens reader.old.state) }
{
    let found = type_phrase(alloc, reader)?;
    if reader.at() == reader.tokens_len() {
        Ok(found)
    } else {
        Err(reader.refuse())
    }
}

/// The phrase of a name of a type, where the names of these numbers are types beside the predefined ones.
fn lone_phrase(
    alloc: Global,
    text: &[u8],
    tokens: &[Token],
    texts: &TokenTexts,
    typedefs: &[u32],
) -> Result<TypePhrase, ParseError>
    requires few { length tokens.now ≤ max_tokens }
    requires texts { AreTextsWith (map (name_of texts.now) typedefs.now) text.now tokens.now texts.now }
    requires spelled { All (λ n. n < length texts.now.names) typedefs.now }
    ensures answers { Answers result (read_type_name text.now tokens.now (map (name_of texts.now) typedefs.now)) }
    ensures within { IsRefusedWithin (length tokens.now) result }
{
    let mut reader = Reader::new(alloc, text, tokens, texts, typedefs)?;
    let found = whole_phrase(alloc, &mut reader);
    refused_within(found, tokens.len() as u32)
}

/// Reads the tokens of `text`, all of them, as a translation unit (C11 6.9): its declarations and functions one after another.
///
/// The tokens stand in the order in which they are read, each with the bytes of `text` that it is and its line. The names of
/// `<stddef.h>` and `<stdint.h>` that the profile has, as `size_t`, are types from the beginning (C11 7.19 and 7.20.1.1). Places in
/// the tree are numbers of tokens. `ParseError::Syntax` is for tokens that no unit has, also for those that nest deeper than the
/// profile's 200; `ParseError::Memory` says nothing of the tokens.
pub fn parse(alloc: Global, text: &[u8], tokens: &[Token]) -> Result<Unit, ParseError>
    requires small { length text.now ≤ max_source_bytes }
    requires count { length tokens.now ≤ max_tokens }
    requires strings { HaveStrings text.now tokens.now }
    // What is answered derives all the tokens.
    ensures found { IfOk result (λ unit. Derives text.now tokens.now unit) }
    // What derives the tokens is answered, unless memory runs out.
    ensures only { (unit : Tree) → Derives text.now tokens.now unit → MatchResult result (λ answer. answer ≡ unit) (λ e. e ≡ ParseError.Memory alloc_error) }
    // Nothing derives what is refused.
    ensures refused { (at : ℕ) → IsErrOf result (ParseError.Syntax at) → (unit : Tree) → Derives text.now tokens.now unit → ⊥ }
    // A refusal names a token, or the end of them.
    ensures within { (at : ℕ) → IsErrOf result (ParseError.Syntax at) → at ≤ length tokens.now }
    ensures few { IfOk result (λ unit. nodes_of_unit unit ≤ max_nodes) }
    ensures shallow { IfOk result (λ unit. depth_of_unit unit ≤ max_depth) }
{
    law_readers();
    law_texts();
    law_sizes();
    law_depths();
    let texts = token_texts(alloc, text, tokens)?;
    let items = unit_items(alloc, text, tokens, &texts)?;
    Ok(Unit { items, texts })
}

/// Reads the tokens of `text`, all of them, as the name of a type (C11 6.7.7), as in `sizeof (int *[3])` between the parentheses.
///
/// The names in `typedefs` are types, beside the predefined ones; all else is as in `parse`.
pub fn parse_type_name(
    alloc: Global,
    text: &[u8],
    tokens: &[Token],
    typedefs: &[Text],
) -> Result<TypeName, ParseError>
    requires small { length text.now ≤ max_source_bytes }
    requires count { length tokens.now ≤ max_tokens }
    requires strings { HaveStrings text.now tokens.now }
    // What is answered derives all the tokens.
    ensures found { IfOk result (λ type. DerivesTypeName text.now tokens.now typedefs.now type) }
    // What derives the tokens is answered, unless memory runs out.
    ensures only { (type : NameOfType) → DerivesTypeName text.now tokens.now typedefs.now type → MatchResult result (λ answer. answer ≡ type) (λ e. e ≡ ParseError.Memory alloc_error) }
    // Nothing derives what is refused.
    ensures refused { (at : ℕ) → IsErrOf result (ParseError.Syntax at) → (type : NameOfType) → DerivesTypeName text.now tokens.now typedefs.now type → ⊥ }
    // A refusal names a token, or the end of them.
    ensures within { (at : ℕ) → IsErrOf result (ParseError.Syntax at) → at ≤ length tokens.now }
    ensures shallow { IfOk result (λ type. depth_of_type_phrase type.phrase ≤ max_depth) }
{
    law_readers();
    law_texts();
    law_depths();
    let found = texts_with_typedefs(alloc, text, tokens, typedefs)?;
    let phrase = lone_phrase(alloc, text, tokens, &found.texts, &found.typedefs)?;
    Ok(TypeName {
        phrase,
        texts: found.texts,
    })
}

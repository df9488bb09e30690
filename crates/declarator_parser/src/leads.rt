//! What a specifier begins with.

ghost use Rattle.std.specs.Prelude.{◌≡◌, ◌<◌, length, OnSome};
ghost use Rattle.grammar_descent.specs.SpecifierSteps as spec;
ghost use Rattle.declarator_parser.specs.Leads.{as_lead};
ghost use Rattle.declarator_parser.specs.Roles.{roles_of};

use crate::type_words::holds_no_type;
use c_grammar::{Aggregate, BasicWord, Qualifier, Specifier, Storage};
use c_tokens::{Keyword, Kind};
use token_reader::Reader;

/// What a specifier begins with (C11 6.7.1 to 6.7.4).
#[derive(Clone, Copy, Debug, PartialEq, Eq)]
pub enum Lead {
    Storage(Storage),
    Qualifier(Qualifier),
    Basic(BasicWord),
    Aggregate(Aggregate),
    Enumeration,
    TypedefName,
}

fn word_lead(word: Keyword) -> Option<Lead>
    ensures { as_lead result ≡ spec.word_lead word }
{
    match word {
        Keyword::Typedef => Some(Lead::Storage(Storage::Typedef)),
        Keyword::Extern => Some(Lead::Storage(Storage::Extern)),
        Keyword::Static => Some(Lead::Storage(Storage::Static)),
        Keyword::Register => Some(Lead::Storage(Storage::Register)),
        Keyword::Auto => Some(Lead::Storage(Storage::Auto)),
        Keyword::Const => Some(Lead::Qualifier(Qualifier::Const)),
        Keyword::Restrict => Some(Lead::Qualifier(Qualifier::Restrict)),
        Keyword::Inline => Some(Lead::Qualifier(Qualifier::Inline)),
        Keyword::Void => Some(Lead::Basic(BasicWord::Void)),
        Keyword::Char => Some(Lead::Basic(BasicWord::Char)),
        Keyword::Short => Some(Lead::Basic(BasicWord::Short)),
        Keyword::Int => Some(Lead::Basic(BasicWord::Int)),
        Keyword::Long => Some(Lead::Basic(BasicWord::Long)),
        Keyword::Signed => Some(Lead::Basic(BasicWord::Signed)),
        Keyword::Unsigned => Some(Lead::Basic(BasicWord::Unsigned)),
        Keyword::Struct => Some(Lead::Aggregate(Aggregate::Struct)),
        Keyword::Union => Some(Lead::Aggregate(Aggregate::Union)),
        Keyword::Enum => Some(Lead::Enumeration),
        _ => None,
    }
}

/// What the next specifier begins with, after these, if one stands there.
#[tactic(auto, unfolding(grammar_descent::specs::SpecifierSteps::lead_at))]
pub fn next_lead(reader: &Reader<'_>, earlier: &[Specifier]) -> Option<Lead>
    ensures value { as_lead result ≡ spec.lead_at reader.now.text reader.now.tokens (roles_of earlier.now) reader.now.state }
    ensures within { OnSome result (reader.now.state.at < length reader.now.tokens) }
{
    match reader.kind() {
        Some(Kind::Word(word)) => word_lead(word),
        Some(Kind::Name) => {
            if reader.names_a_type() && holds_no_type(earlier) {
                Some(Lead::TypedefName)
            } else {
                None
            }
        }
        _ => None,
    }
}

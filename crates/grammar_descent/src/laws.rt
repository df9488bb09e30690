//! What the readers find is what the grammar derives.

ghost use Rattle.std.specs.Prelude.{◌≡◌, ◌≤◌, ◌↔◌, ℕ, List, length, Some};
ghost use Rattle.c_tokens.specs.declared.token.Token.{Token as Word};
ghost use Rattle.c_grammar.specs.declared.units.Unit.{Unit as Tree};
ghost use Rattle.c_grammar.specs.declared.units.TypeName.{TypeName as NameOfType};
ghost use Rattle.c_tokens.specs.Names.{Name};
ghost use Rattle.token_texts.specs.Texts.{AreTexts, AreTextsWith};
ghost use Rattle.c_grammar.specs.Units.{Derives, DerivesTypeName};
ghost use Rattle.grammar_descent.specs.Exact.{Exact};
ghost use Rattle.grammar_descent.specs.AllReaders.{readers, read_unit, read_type_name};

use token_texts::law_texts;

/// The readers are exact: they read what is derived and nothing else, phrase by phrase and as a whole.
pub fn law_readers()
    ensures phrases { (text : List ℕ) (tokens : List Word) (depth : ℕ) → Exact text tokens depth (readers text tokens depth) }
    ensures unit { (text : List ℕ) (tokens : List Word) (unit : Tree) → ((read_unit text tokens ≡ Some unit.items) × AreTexts text tokens unit.texts) ↔ Derives text tokens unit }
    ensures type_name { (text : List ℕ) (tokens : List Word) (typedefs : List Name) (type : NameOfType) → ((read_type_name text tokens typedefs ≡ Some type.phrase) × AreTextsWith typedefs text tokens type.texts) ↔ DerivesTypeName text tokens typedefs type }
{}

/// The grammar gives a text one reading at most (C11 6.5 to 6.9), and each declaration and each function takes a token.
pub fn law_derivation()
    ensures unit { (text : List ℕ) (tokens : List Word) (a b : Tree) → Derives text tokens a → Derives text tokens b → a ≡ b }
    ensures type_name { (text : List ℕ) (tokens : List Word) (typedefs : List Name) (a b : NameOfType) → DerivesTypeName text tokens typedefs a → DerivesTypeName text tokens typedefs b → a ≡ b }
    ensures few { (text : List ℕ) (tokens : List Word) (unit : Tree) → Derives text tokens unit → length unit.items ≤ length tokens }
{
    law_texts();
}

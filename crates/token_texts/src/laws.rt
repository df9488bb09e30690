//! The texts of tokens are one table, in which equal numbers are equal spellings.

ghost use Rattle.std.specs.Prelude.{◌≡◌, ◌↔◌, ℕ, List, Some, slice_get};
ghost use Rattle.c_tokens.specs.declared.token.Token.{Token as Piece};
ghost use Rattle.c_tokens.specs.Names.{Name};
ghost use Rattle.c_tokens.specs.declared.kind.Kind.TheVariants as k;
ghost use Rattle.c_lexer.specs.Escapes.{IsStringOf};
ghost use Rattle.token_texts.specs.Names.{name_at, predefined};
ghost use Rattle.token_texts.specs.Texts.{Texts, AreTextsFrom, IsNameAt, number_at, string_of, AreTextsWith};

use c_lexer::law_strings;

/// Tokens have one table of texts. In it the number of a name tells the name, and equal numbers are equal names; the number of
/// a string literal tells its bytes. A name stands in the table once, and the predefined ones stand first.
pub fn law_texts()
    ensures one { (given : List Name) (text : List ℕ) (tokens : List Piece) (a b : Texts) → AreTextsFrom given text tokens a → AreTextsFrom given text tokens b → a ≡ b }
    ensures names { (given : List Name) (text : List ℕ) (tokens : List Piece) (texts : Texts) → AreTextsFrom given text tokens texts → (at : ℕ) → IsNameAt tokens at → slice_get texts.names (number_at texts at) ≡ Some (name_at text tokens at) }
    ensures equal_names { (given : List Name) (text : List ℕ) (tokens : List Piece) (texts : Texts) → AreTextsFrom given text tokens texts → (i j : ℕ) → IsNameAt tokens i → IsNameAt tokens j → (number_at texts i ≡ number_at texts j) ↔ (name_at text tokens i ≡ name_at text tokens j) }
    ensures strings { (given : List Name) (text : List ℕ) (tokens : List Piece) (texts : Texts) → AreTextsFrom given text tokens texts → (at : ℕ) (token : Piece) → slice_get tokens at ≡ Some token → token.kind ≡ k.Str → IsStringOf text token.start token.end (string_of texts (number_at texts at)) }
    ensures distinct_names { (given : List Name) (text : List ℕ) (tokens : List Piece) (texts : Texts) → AreTextsFrom given text tokens texts → (m n : ℕ) (name : Name) → slice_get texts.names m ≡ Some name → slice_get texts.names n ≡ Some name → m ≡ n }
    ensures predefined_names { (typedefs : List Name) (text : List ℕ) (tokens : List Piece) (texts : Texts) → AreTextsWith typedefs text tokens texts → (n : ℕ) (name : Name) → slice_get predefined n ≡ Some name → slice_get texts.names n ≡ Some name }
{
    law_strings();
}

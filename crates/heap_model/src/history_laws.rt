//! What every legal history keeps, and how regions' histories and callers' orders make one.

ghost use Rattle.heap_model.specs.Extension.{ExtensionLaw};
ghost use Rattle.heap_model.specs.Makers.{MakersLaw};
ghost use Rattle.heap_model.specs.Pieces.{PiecesLaw};
ghost use Rattle.heap_model.specs.Replies.{RepliesLaw};
ghost use Rattle.heap_model.specs.Restricted.{RestrictionsLaw};

/// At each moment of a legal history each aligned piece of a live object is whole: its eight cells are bytes, or the
/// eight parts of one pointer value that is not null.
pub fn law_pieces()
    ensures { PiecesLaw }
{}

/// Each reply of a legal history suits its call.
pub fn law_replies()
    ensures { RepliesLaw }
{}

/// In a well numbered history each call makes one object at most.
pub fn law_makers()
    ensures { MakersLaw }
{}

/// A history is legal exactly where each entry's region is from 1 to 27 and its restriction to each region is legal.
pub fn law_restrictions()
    ensures { RestrictionsLaw }
{}

/// Regions' histories and callers' orders have one common extension by stamps, which is legal and which each rising
/// rearrangement of their entries is.
pub fn law_extension()
    ensures { ExtensionLaw }
{}

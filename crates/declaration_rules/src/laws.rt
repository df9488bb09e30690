//! What holds of what a unit is.

ghost use Rattle.std.specs.Prelude.{◌≡◌, List, Option, ℕ};
ghost use Rattle.c_grammar.specs.declared.units.Unit.{Unit as Whole};
ghost use Rattle.c_print.specs.declared.parts.Part.{Part as Piece};
ghost use Rattle.c_tree.specs.declared.program.Program.{Program as Tree};
ghost use Rattle.static_rules.specs.Answers.{Answer};
ghost use Rattle.static_rules.specs.Formats.{ReadsFormats};
ghost use Rattle.declaration_rules.specs.Programs.{HasAnswer};

use c_print::law_formats;

/// The formats of `printf` can be read, so a unit has one answer at most: one program, or one first fault.
pub fn law_answers()
    ensures formats { (format : List ℕ → Option (List Piece)) × ReadsFormats format }
    ensures one { (unit : Whole) (a b : Answer Tree) → HasAnswer unit a → HasAnswer unit b → a ≡ b }
{
    law_formats();
}

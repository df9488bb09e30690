//! How the rules of a call over the syntax tree are cut where its arguments are read.

ghost use Rattle.std.specs.Prelude.{◌≡◌, ℕ, [], ◌∷◌, ◌++◌, List, Option};
ghost use Rattle.call_steps.specs.Cuts.{AreCut};
ghost use Rattle.call_steps.specs.Printing.{print_arguments, with_printed};
ghost use Rattle.call_steps.specs.Reading.{followed, with_argument};
ghost use Rattle.static_rules.specs.Calls.{before, promoted_argument};
ghost use Rattle.static_rules.specs.declared.judged.Arguments.{Arguments};
ghost use Rattle.static_rules.specs.declared.judged.Operand.{Operand};

/// What the rules say of a call over the syntax tree is its arguments, and behind them what the functions here answer.
pub fn law_calls()
    ensures { AreCut }
{}

/// An argument behind those that were read stands before those that follow.
pub fn law_arguments()
    ensures { (read rest : Arguments) (x : Option Operand) →
        followed (with_argument read x) rest ≡ followed read (before x rest) }
{}

/// An argument of `printf` behind those that were read is the last of all of them.
pub fn law_printed()
    ensures { (line : ℕ) (xs : List Operand) (x : Operand) →
        print_arguments line (xs ++ x ∷ []) ≡ with_printed (print_arguments line xs) (promoted_argument line x) }
{}

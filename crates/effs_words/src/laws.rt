//! What holds of all lists of words.

ghost use Rattle.std.specs.Prelude.{◌≡◌, ◌⊎◌, ℕ, List, drop, length, true};
ghost use Rattle.effs_words.specs.Numbers.{Word};
ghost use Rattle.effs_words.specs.Words.{Words, BadWord, IsMemory};
ghost use Rattle.effs_words.specs.Options.{watch_places};
ghost use Rattle.effs_words.specs.declared.command.Command.{Command as Asked};
ghost use Rattle.effs_words.specs.declared.command.RunWords.{RunWords as Run};
ghost use Rattle.effs_words.specs.declared.error.WordError.{WordError as Refused};

/// Each list of words asks for one thing, or has one first bad word, and never both. No bad word is told as the end of memory.
pub fn law_words()
    ensures apart { (words : List Word) (command : Asked) (e : Refused) → Words words command → BadWord words e → ⊥ }
    ensures every { (words : List Word) → ((command : Asked) × Words words command) ⊎ ((e : Refused) × BadWord words e) }
    ensures one_command { (words : List Word) (command other : Asked) → Words words command → Words words other → other ≡ command }
    ensures one_refusal { (words : List Word) (e other : Refused) → BadWord words e → BadWord words other → other ≡ e }
    ensures no_memory { (words : List Word) (e : Refused) → BadWord words e → IsMemory e → ⊥ }
{}

/// Each name of a watcher that `play` is given has a place among its words.
pub fn law_watches()
    ensures { (words : List Word) (run : Run) (schedule : List ℕ) → Words words (Asked.Play run schedule) → length (watch_places true (drop 1 words)) ≡ length run.watch }
{}

//! The laws of the meaning.

ghost use Rattle.std.specs.Prelude.{◌≡◌, ℕ, ◌<◌, ◌≤◌, ◌++◌, List, length};
ghost use Rattle.heap_model.specs.declared.calls.Call.{Call};
ghost use Rattle.heap_model.specs.declared.calls.Reply.{Reply};
ghost use Rattle.plain_meaning.specs.declared.record.Report.{Report};
ghost use Rattle.plain_meaning.specs.declared.record.Ending.TheVariants.{Spent, Reported};
ghost use Rattle.plain_meaning.specs.declared.record.Setting.{Setting};
ghost use Rattle.plain_meaning.specs.declared.tree.Program.{Program};
ghost use Rattle.plain_meaning.specs.Acts.{Acts, Ends, IsSeen, Extends, feed};
ghost use Rattle.plain_meaning.specs.Meaning.{call};
ghost use Rattle.plain_meaning.specs.Reported.{ReportedLaw};
ghost use Rattle.plain_meaning.specs.Run.{checked_acts, worker};

/// Where at least as many turns of each loop are looked at as the limit has, how many it is changes nothing.
pub fn law_turns_looked_at()
    ensures { (program : Program) (setting : Setting) (n : ℕ) (replies : List Reply) → setting.turns ≤ n → feed replies (checked_acts setting.turns (call n program setting.entry)) ≡ worker program setting replies }
{}

/// Where the function is there, the worker waits for a reply or ends, whatever it was told.
pub fn law_nothing_lost()
    ensures { (program : Program) (setting : Setting) (replies : List Reply) → setting.entry < length program.functions → IsSeen (worker program setting replies).end }
{}

/// The worker ends as `Spent` only once it has used all turns of the limit, and it never uses more.
pub fn law_spent()
    ensures all { (program : Program) (setting : Setting) (replies : List Reply) (line : ℕ) → (worker program setting replies).end ≡ Ends (Spent line) → (worker program setting replies).turns ≡ setting.turns }
    ensures within { (program : Program) (setting : Setting) (replies : List Reply) → (worker program setting replies).turns ≤ setting.turns }
{}

/// More replies only extend the calls, the text and the turns, and where the worker has ended they change nothing.
pub fn law_prefix()
    ensures { (worker : Acts Call Reply) (replies more : List Reply) → Extends (feed replies worker) (feed (replies ++ more) worker) }
{}

/// A report wants one of the nine types that each table has, or none, whose number is 0.
pub fn law_wants()
    ensures { (program : Program) (setting : Setting) (replies : List Reply) (report : Report) → (worker program setting replies).end ≡ Ends (Reported report) → report.want ≤ 9 }
{}

/// A worker that ends with a report ends with the one that the reply of its last entry gives, or with that of a pointer out of its reach, whose
/// word and reach it tells.
pub fn law_reported()
    ensures { ReportedLaw }
{}

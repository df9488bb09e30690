//! The top call on one thread.

ghost use Rattle.std.specs.Prelude.{◌≡◌, ◌⊎◌, ℕ, List, true, false, Some, map, IsTrue, string_bytes};
ghost use Rattle.effs_io.specs.Streams.{Rose, Appends, AppendsSome, Writes};
ghost use Rattle.effsan_top.specs.Calls.{JudgesWords, Plays, ReadsSource, WritesRun, TellsCause};
ghost use Rattle.effsan_top.specs.Causes.{IsEmpty};
ghost use Rattle.effsan_top.specs.Histories.{IsHistory, ReportsAreShown};
ghost use Rattle.effsan_top.specs.Lines.{status_of, line_of};
ghost use Rattle.effsan_top.specs.Served.{AskSolo};
ghost use Rattle.effsan_top.specs.Statuses.{is_answer, is_run, is_status, run_status, words_refused, write_fault};
ghost use Rattle.effsan_top.specs.declared.refusal.Refusal.TheVariants.{WriteFault};
ghost use Rattle.effsan_top.specs.declared.served.SoloPlay.{SoloPlay};

use crate::answer::{Answer, answer_words};
use crate::program::law_program;
use crate::refusal::Refusal;
use crate::statuses::status_of_run;
use effs_io::{Sink, Source, write_all};
use effs_words::{law_watches, law_words};
use heap_model::History;
use plain_meaning::Record;
use sqlite_items::Items;
use std::alloc::Global;

/// How a call ended: its exit status, and the record of the run, empty where nothing ran.
#[derive(Debug, Drop)]
pub struct Finished {
    pub status: u8,
    pub run: Record,
}

fn refused<E: Sink>(alloc: Global, refusal: Refusal, err: &mut E) -> Finished
    ensures status { result.status ≡ status_of refusal }
    ensures run { IsEmpty result.run }
    ensures err { Writes (line_of refusal) (E.taken err.old) (E.taken err.new) (Rose (E.faults err.old) (E.faults err.new)) }
{
    let _ = refusal.write(err);
    let run = Record {
        history: History::new(alloc),
        endings: Items::new(alloc),
        texts: Items::new(alloc),
    };
    Finished {
        status: refusal.status(),
        run,
    }
}

fn written<O: Sink, E: Sink>(answer: Answer, out: &mut O, err: &mut E) -> Finished
    ensures run { result.run ≡ answer.run }
    ensures status { (result.status ≡ run_status answer.run.endings) ⊎ (result.status ≡ write_fault) }
    ensures whole { result.status ≡ run_status answer.run.endings → Appends answer.text (O.taken out.old) (O.taken out.new) }
    ensures silent { result.status ≡ run_status answer.run.endings → err.new ≡ err.old }
    ensures part { result.status ≡ write_fault → AppendsSome answer.text (O.taken out.old) (O.taken out.new) }
    ensures cause { result.status ≡ write_fault → Rose (O.faults out.old) (O.faults out.new) }
    ensures told { result.status ≡ write_fault → Writes (line_of WriteFault) (E.taken err.old) (E.taken err.new) (Rose (E.faults err.old) (E.faults err.new)) }
{
    let Answer { run, text } = answer;
    match write_all(out, text.bytes()) {
        Ok(()) => Finished {
            status: status_of_run(&run),
            run,
        },
        Err(_) => {
            let refusal = Refusal::WriteFault;
            let _ = refusal.write(err);
            Finished {
                status: refusal.status(),
                run,
            }
        }
    }
}

/// Serves the words `play --entry NAME`, with `--turns N` or without: reads the source to its end, runs the function of that
/// name, and writes what it prints, and then the lines of endings, to `out`. A line on `err` says why there is no answer, or
/// only a part of one. Clauses on bytes speak where a stream tells its own; what the text becomes, and the run, are said whether
/// or not the source tells its bytes.
pub fn effsan_still<S: Source, O: Sink, E: Sink>(
    alloc: Global,
    words: &[String],
    src: &mut S,
    out: &mut O,
    err: &mut E,
) -> Finished
    // The words are judged first, and by themselves.
    ensures words { JudgesWords (map string_bytes words.now) result.status }
    // `play` of one function.
    ensures play { (play : SoloPlay) → AskSolo (map string_bytes words.now) play → Plays play (S.left src.old) result.status result.run }
    ensures status { IsTrue (is_status result.status) }
    // The record is a history of the one-thread heap, each check answered by its cause, each access inside its bounds.
    ensures history { IsHistory result.run.history.entries }
    ensures reports { ReportsAreShown result.run }
    ensures no_run { is_run result.status ≡ false → IsEmpty result.run }
    // Words that are refused leave the source alone.
    ensures untouched { result.status ≡ words_refused → src.new ≡ src.old }
    ensures source { ReadsSource result.status (S.left src.old) (S.left src.new) }
    // The output took what the run prints, or nothing.
    ensures out { WritesRun result.status result.run (O.taken out.old) (O.taken out.new) }
    ensures out_none { is_run result.status ≡ false → out.new ≡ out.old }
    // The error output took the line of the cause, or nothing.
    ensures cause { is_answer result.status ≡ false → TellsCause (map string_bytes words.now) (S.left src.old)
        (Rose (S.faults src.old) (S.faults src.new)) (Rose (O.faults out.old) (O.faults out.new)) result.status
        (E.taken err.old) (E.taken err.new) (Rose (E.faults err.old) (E.faults err.new)) }
    ensures err_none { is_answer result.status ≡ true → err.new ≡ err.old }
{
    law_words();
    law_watches();
    law_program();
    match answer_words(alloc, words, src) {
        Ok(answer) => written(answer, out, err),
        Err(refusal) => refused(alloc, refusal, err),
    }
}

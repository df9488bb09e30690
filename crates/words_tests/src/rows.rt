//! Lines of words, each with what `read_words` answers: what is asked for, or the refusal.

use effs_words::{Command, RunWords, read_words};
use std::alloc::{AllocError, Global};
use std::test::Fail;

/// A line, its words parted by one space, and the answer. `''` is a word without bytes, and `_` a blank within a word.
struct Row {
    line: &'static str,
    answer: &'static str,
}

static ROWS: [Row; 72] = [
    // the first word
    Row {
        line: "",
        answer: "NoCommand",
    },
    Row {
        line: "go",
        answer: "UnknownWord(1)",
    },
    Row {
        line: "Run --entry f",
        answer: "UnknownWord(1)",
    },
    Row {
        line: "--entry f",
        answer: "UnknownWord(1)",
    },
    Row {
        line: "check",
        answer: "check",
    },
    Row {
        line: "check --entry",
        answer: "UnknownWord(2)",
    },
    Row {
        line: "verify",
        answer: "verify",
    },
    Row {
        line: "verify x y",
        answer: "UnknownWord(2)",
    },
    // `big`
    Row {
        line: "big",
        answer: "MissingValue(1)",
    },
    Row {
        line: "big 1",
        answer: "big 1",
    },
    Row {
        line: "big 2000",
        answer: "big 2000",
    },
    Row {
        line: "big 0",
        answer: "BadNumber(2)",
    },
    Row {
        line: "big 2001",
        answer: "BadNumber(2)",
    },
    Row {
        line: "big 2001 x",
        answer: "BadNumber(2)",
    },
    Row {
        line: "big 7 x",
        answer: "UnknownWord(3)",
    },
    Row {
        line: "big 0000000007",
        answer: "big 7",
    },
    Row {
        line: "big 00000000007",
        answer: "BadNumber(2)",
    },
    Row {
        line: "big +7",
        answer: "BadNumber(2)",
    },
    Row {
        line: "big 7a",
        answer: "BadNumber(2)",
    },
    // `layout`
    Row {
        line: "layout",
        answer: "MissingValue(1)",
    },
    Row {
        line: "layout S",
        answer: "MissingValue(2)",
    },
    Row {
        line: "layout S 24",
        answer: "MissingValue(3)",
    },
    Row {
        line: "layout S 24 16",
        answer: "MissingValue(4)",
    },
    Row {
        line: "layout S 24 16 int",
        answer: "layout S 24 16 int",
    },
    Row {
        line: "layout S 1048559 1048576 int",
        answer: "layout S 1048559 1048576 int",
    },
    Row {
        line: "layout S 0 0 int",
        answer: "layout S 0 0 int",
    },
    Row {
        line: "layout S 1048560",
        answer: "BadNumber(3)",
    },
    Row {
        line: "layout S 24 1048577",
        answer: "BadNumber(4)",
    },
    Row {
        line: "layout S -1 16 int",
        answer: "BadNumber(3)",
    },
    Row {
        line: "layout S 24 16 int x",
        answer: "UnknownWord(6)",
    },
    Row {
        line: "layout S x y z w",
        answer: "BadNumber(3)",
    },
    // options
    Row {
        line: "run",
        answer: "NoEntry",
    },
    Row {
        line: "run --entry",
        answer: "MissingValue(2)",
    },
    Row {
        line: "run --entry f",
        answer: "run 1 turns 1000000 watch 0",
    },
    Row {
        line: "run --entry --entry",
        answer: "run 1 turns 1000000 watch 0",
    },
    Row {
        line: "run --entry f --schedule 1",
        answer: "UnknownWord(4)",
    },
    Row {
        line: "run f",
        answer: "UnknownWord(2)",
    },
    Row {
        line: "play --entry f --turns",
        answer: "MissingValue(4)",
    },
    Row {
        line: "play --entry f --turns 0",
        answer: "BadNumber(5)",
    },
    Row {
        line: "play --entry f --turns 1",
        answer: "play 1 turns 1 watch 0 turn 0",
    },
    Row {
        line: "play --entry f --turns 5000000",
        answer: "play 1 turns 5000000 watch 0 turn 0",
    },
    Row {
        line: "play --entry f --turns 5000001",
        answer: "BadNumber(5)",
    },
    Row {
        line: "play --turns 3 --turns",
        answer: "Repeated(4)",
    },
    Row {
        line: "play --turns x",
        answer: "BadNumber(3)",
    },
    Row {
        line: "play --turns 1",
        answer: "NoEntry",
    },
    Row {
        line: "play --setup a --finish b --setup",
        answer: "Repeated(6)",
    },
    Row {
        line: "play --setup a --finish b --finish",
        answer: "Repeated(6)",
    },
    Row {
        line: "play --record --record",
        answer: "Repeated(3)",
    },
    Row {
        line: "play --trim --trim",
        answer: "Repeated(3)",
    },
    Row {
        line: "play --bytes --bytes",
        answer: "Repeated(3)",
    },
    Row {
        line: "run --entry f --record --bytes",
        answer: "Excluded(5)",
    },
    Row {
        line: "run --bytes --record",
        answer: "Excluded(3)",
    },
    Row {
        line: "run --bytes --watch",
        answer: "Excluded(3)",
    },
    Row {
        line: "run --watch a --bytes",
        answer: "Excluded(4)",
    },
    Row {
        line: "run --watch a --watch b --watch a",
        answer: "Repeated(6)",
    },
    Row {
        line: "run --watch --watch --watch --watch",
        answer: "Repeated(4)",
    },
    Row {
        line: "run --watch a --watch b --entry f",
        answer: "run 1 turns 1000000 watch 2",
    },
    // entries
    Row {
        line: "play --entry a --entry a --entry a --entry a --entry a --entry a --entry a --entry a",
        answer: "play 8 turns 1000000 watch 0 turn 0",
    },
    Row {
        line: "play --entry a --entry a --entry a --entry a --entry a --entry a --entry a --entry a --entry a x",
        answer: "TooManyEntries",
    },
    Row {
        line: "play --entry a --entry a --entry a --entry a --entry a --entry a --entry a --entry a --entry",
        answer: "MissingValue(18)",
    },
    // schedules
    Row {
        line: "play --entry f --schedule 1",
        answer: "play 1 turns 1000000 watch 0 turn 1",
    },
    Row {
        line: "play --schedule 1,2*3,1 --entry f --entry g",
        answer: "play 2 turns 1000000 watch 0 turn 5",
    },
    Row {
        line: "play --schedule 3 --entry f --entry g",
        answer: "BadNumber(3)",
    },
    Row {
        line: "play --schedule 0 --entry f",
        answer: "BadNumber(3)",
    },
    Row {
        line: "play --schedule 1*0 --entry f",
        answer: "BadNumber(3)",
    },
    Row {
        line: "play --schedule 1* --entry f",
        answer: "BadNumber(3)",
    },
    Row {
        line: "play --schedule *1 --entry f",
        answer: "BadNumber(3)",
    },
    Row {
        line: "play --schedule 1,,1 --entry f",
        answer: "BadNumber(3)",
    },
    Row {
        line: "play --schedule 1*2*3 --entry f",
        answer: "BadNumber(3)",
    },
    Row {
        line: "play --schedule 1*99999,1 --entry f",
        answer: "play 1 turns 1000000 watch 0 turn 100000",
    },
    Row {
        line: "play --schedule 1*100000,1 --entry f",
        answer: "BadNumber(3)",
    },
    Row {
        line: "play --schedule 1 --schedule",
        answer: "BadNumber(3)",
    },
];

static FURTHER_ROWS: [Row; 39] = [
    // values that are missing
    Row {
        line: "run --setup",
        answer: "MissingValue(2)",
    },
    Row {
        line: "run --finish",
        answer: "MissingValue(2)",
    },
    Row {
        line: "run --watch",
        answer: "MissingValue(2)",
    },
    Row {
        line: "play --schedule",
        answer: "MissingValue(2)",
    },
    Row {
        line: "play --entry f --record --turns",
        answer: "MissingValue(5)",
    },
    // options that stand again, or do not go together
    Row {
        line: "play --turns 7 --turns 7 --entry f",
        answer: "Repeated(4)",
    },
    Row {
        line: "play --schedule 1 --entry f --schedule 1",
        answer: "Repeated(6)",
    },
    Row {
        line: "run --setup a --setup b",
        answer: "Repeated(4)",
    },
    Row {
        line: "run --finish a --finish b",
        answer: "Repeated(4)",
    },
    Row {
        line: "run --bytes --watch a",
        answer: "Excluded(3)",
    },
    Row {
        line: "run --bytes --bytes --watch a",
        answer: "Repeated(3)",
    },
    // numbers of none to eleven digits
    Row {
        line: "play --turns '' --entry f",
        answer: "BadNumber(3)",
    },
    Row {
        line: "play --turns 4 --entry f",
        answer: "play 1 turns 4 watch 0 turn 0",
    },
    Row {
        line: "play --turns 44 --entry f",
        answer: "play 1 turns 44 watch 0 turn 0",
    },
    Row {
        line: "play --turns 444 --entry f",
        answer: "play 1 turns 444 watch 0 turn 0",
    },
    Row {
        line: "play --turns 4444 --entry f",
        answer: "play 1 turns 4444 watch 0 turn 0",
    },
    Row {
        line: "play --turns 44444 --entry f",
        answer: "play 1 turns 44444 watch 0 turn 0",
    },
    Row {
        line: "play --turns 444444 --entry f",
        answer: "play 1 turns 444444 watch 0 turn 0",
    },
    Row {
        line: "play --turns 4444444 --entry f",
        answer: "play 1 turns 4444444 watch 0 turn 0",
    },
    Row {
        line: "play --turns 04444444 --entry f",
        answer: "play 1 turns 4444444 watch 0 turn 0",
    },
    Row {
        line: "play --turns 004444444 --entry f",
        answer: "play 1 turns 4444444 watch 0 turn 0",
    },
    Row {
        line: "play --turns 0004444444 --entry f",
        answer: "play 1 turns 4444444 watch 0 turn 0",
    },
    Row {
        line: "play --turns 00004444444 --entry f",
        answer: "BadNumber(3)",
    },
    Row {
        line: "play --turns -4 --entry f",
        answer: "BadNumber(3)",
    },
    // blanks and empty words
    Row {
        line: "play --turns _4 --entry f",
        answer: "BadNumber(3)",
    },
    Row {
        line: "play --turns 4_ --entry f",
        answer: "BadNumber(3)",
    },
    Row {
        line: "_play --entry f",
        answer: "UnknownWord(1)",
    },
    Row {
        line: "play_ --entry f",
        answer: "UnknownWord(1)",
    },
    Row {
        line: "'' --entry f",
        answer: "UnknownWord(1)",
    },
    Row {
        line: "play '' --entry f",
        answer: "UnknownWord(2)",
    },
    Row {
        line: "play --entry '' --turns 4",
        answer: "play 1 turns 4 watch 0 turn 0",
    },
    // parts of schedules
    Row {
        line: "play --schedule '' --entry f",
        answer: "BadNumber(3)",
    },
    Row {
        line: "play --schedule 1, --entry f",
        answer: "BadNumber(3)",
    },
    Row {
        line: "play --schedule ,1 --entry f",
        answer: "BadNumber(3)",
    },
    Row {
        line: "play --schedule 1_*2 --entry f",
        answer: "BadNumber(3)",
    },
    Row {
        line: "play --schedule 01*02 --entry f",
        answer: "play 1 turns 1000000 watch 0 turn 2",
    },
    Row {
        line: "play --schedule 1*00000000001 --entry f",
        answer: "BadNumber(3)",
    },
    Row {
        line: "play --schedule 1*100000 --entry f",
        answer: "play 1 turns 1000000 watch 0 turn 100000",
    },
    Row {
        line: "play --schedule 1*100001 --entry f",
        answer: "BadNumber(3)",
    },
];

/// A word as it is given.
fn word_of(alloc: Global, spelled: &str) -> Result<String, AllocError> {
    let mut word = String::new(alloc);
    if spelled != "''" {
        for letter in spelled.chars() {
            word.push(if letter == '_' { ' ' } else { letter })?;
        }
    }
    Ok(word)
}

/// The words of a line.
fn words_of(alloc: Global, line: &str) -> Result<Vec<String>, AllocError> {
    let mut words = Vec::new(alloc);
    for word in line.split(' ') {
        if !word.is_empty() {
            words.push(word_of(alloc, word)?)?;
        }
    }
    Ok(words)
}

fn said_of_run(alloc: Global, run: &RunWords) -> Result<String, AllocError> {
    format!(in alloc;
        "{} turns {} watch {}",
        run.entries.len(),
        run.turns,
        run.watch.len()
    )
}

fn text_of(bytes: &[u8]) -> &str {
    match str::from_utf8(bytes) {
        Ok(text) => text,
        Err(_) => "?",
    }
}

/// What is asked for.
fn said(alloc: Global, command: &Command) -> Result<String, AllocError> {
    match command {
        Command::Run(run) => {
            let run = said_of_run(alloc, run)?;
            format!(in alloc; "run {run}")
        }
        Command::Play(run, schedule) => {
            let run = said_of_run(alloc, run)?;
            format!(in alloc; "play {run} turn {}", schedule.len())
        }
        Command::Layout {
            elem,
            size,
            k,
            want,
        } => format!(in alloc;
            "layout {} {size} {k} {}",
            text_of(elem.bytes()),
            text_of(want.bytes()),
        ),
        Command::Check => format!(in alloc; "check"),
        Command::Big(n) => format!(in alloc; "big {n}"),
        Command::Verify => format!(in alloc; "verify"),
    }
}

fn answer(alloc: Global, line: &str) -> Result<String, AllocError> {
    let words = words_of(alloc, line)?;
    match read_words(alloc, words.as_slice()) {
        Ok(command) => said(alloc, &command),
        Err(error) => format!(in alloc; "{error:?}"),
    }
}

#[test]
fn each_line_has_its_answer(rt: HostRuntime) -> Result<(), Fail> {
    for row in ROWS.iter().chain(FURTHER_ROWS.iter()) {
        let answer = answer(rt.alloc(), row.line)?;
        assert_eq!(rt; answer.as_str(), row.answer);
    }
    Ok(())
}

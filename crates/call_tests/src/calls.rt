//! Each public call below the top one, on its happy path: with memory to be had, none answers want of it.

ghost use Rattle.std.specs.Prelude.{◌<◌, length};

use c_lexer::{MAX_SOURCE_BYTES, law_strings, lex};
use c_parser::parse;
use c_types::TypeTable;
use effsan_top::{
    CalmSink, CalmSource, InSource, MemSink, MemSource, OutSink, effsan_still, read_all, write_all,
};
use layout_table::Table;
use plain_meaning::{Ending, Program, Record, Setting, Text, find_entry};
use program_form::{FormError, program_of};
use std::alloc::{AllocError, Global};
use std::process::Abort;
use std::test::Fail;
use tree_walk::run;

/// Words of the command line.
fn words_of(alloc: Global, words: &[&str]) -> Result<Vec<String>, AllocError> {
    let mut all = Vec::new(alloc);
    for word in words {
        all.push(String::from_str(alloc, word)?)?;
    }
    Ok(all)
}

/// What a text without directives is.
#[derive(Drop)]
enum Form {
    Runs(Program),
    /// The line on which what is outside the form begins.
    NotYet(u32),
}

fn form_of(alloc: Global, text: &[u8]) -> Result<Form, Fail> {
    if text.len() > MAX_SOURCE_BYTES {
        return Err(Fail::from("too large"));
    }
    let Ok(tokens) = lex(alloc, text) else {
        return Err(Fail::from("lex"));
    };
    law_strings();
    let Ok(unit) = parse(alloc, text, tokens.as_slice()) else {
        return Err(Fail::from("parse"));
    };
    match program_of(alloc, &unit) {
        Ok(program) => Ok(Form::Runs(program)),
        Err(FormError::NotYet(line)) => Ok(Form::NotYet(line)),
        Err(FormError::Memory(_)) => Err(Fail::from("memory")),
    }
}

fn program_from(alloc: Global, text: &[u8]) -> Result<Program, Fail> {
    match form_of(alloc, text)? {
        Form::Runs(program) => Ok(program),
        Form::NotYet(_) => Err(Fail::from("outside the form")),
    }
}

/// The record of a run over the basic types.
fn record_of(alloc: Global, program: &Program, setting: &Setting) -> Result<Record, Fail>
    requires { setting.now.entry < length program.now.functions }
{
    let types = TypeTable::new(alloc)?;
    let Ok(table) = Table::build(alloc, &types) else {
        return Err(Fail::from("table"));
    };
    Ok(run(alloc, &table, program, setting)?)
}

#[test]
fn a_program_is_read_and_run(rt: HostRuntime) -> Result<(), Fail> {
    let text = b"void g(void) { } void f(void) { printf(\"%d\\n\", 3 + 4); }";
    let program = program_from(rt.alloc(), text)?;
    assert_eq!(rt; program.functions.len(), 2);
    let entry = find_entry(&program, b"f").map_err(|_| "entry")?;
    assert_eq!(rt; entry, 1);
    assert!(rt; find_entry(&program, b"h").is_err());
    let setting = Setting { entry, turns: 10 };
    if entry as usize >= program.functions.len() {
        return Err(Fail::from("entry"));
    }
    let done = record_of(rt.alloc(), &program, &setting)?;
    assert_eq!(rt;
        done.endings.as_slice(),
        [Ending::Finished, Ending::Finished].as_slice()
    );
    assert_eq!(rt; done.texts.len(), 3);
    assert_eq!(rt; done.history.len(), 0);
    Ok(())
}

#[test]
fn what_is_outside_the_form_begins_on_a_line(rt: HostRuntime) -> Result<(), Fail> {
    let text = b"void f(void) { }\nvoid g(void)\n{ return; }\nint x;";
    match form_of(rt.alloc(), text)? {
        Form::Runs(_) => Err(Fail::from("of the form")),
        Form::NotYet(line) => {
            assert_eq!(rt; line, 2);
            Ok(())
        }
    }
}

/// The record of a body that is given ten turns.
fn with_ten_turns(alloc: Global, body: &str) -> Result<Record, Fail> {
    let text = format!(in alloc; "void f(void) {{ {body} }}")?;
    let program = program_from(alloc, text.as_bytes())?;
    if program.functions.is_empty() {
        return Err(Fail::from("no function"));
    }
    let setting = Setting {
        entry: 0,
        turns: 10,
    };
    record_of(alloc, &program, &setting)
}

/// The first statement, and one that is repeated so many times; whether it ends, and how many calls were made.
static TURNS: [(&str, &str, u32, bool, u64); 7] = [
    ("int *q = (int *)q;", "q = (int *)q;", 9, true, 0),
    ("int *q = (int *)q;", "q = (int *)q;", 10, false, 0),
    // the check of a conversion takes none
    ("int *p = malloc(4);", "p = (int *)p;", 9, true, 10),
    ("int *p = malloc(4);", "p = (int *)p;", 10, false, 10),
    ("int *p = malloc(4);", "p[0] = 1;", 9, true, 10),
    ("int *p = malloc(4);", "p[0] = p[0];", 5, false, 10),
    // nor does the free of a null pointer
    ("int *q = (int *)q;", "free(q);", 50, true, 0),
];

fn check_turns(
    rt: &impl Abort,
    alloc: Global,
    rows: &[(&str, &str, u32, bool, u64)],
) -> Result<(), Fail> {
    for (first, piece, times, ends, calls) in rows {
        let mut body = String::from_str(alloc, first)?;
        for _ in 0..*times {
            body.push_str(piece)?;
        }
        let done = with_ten_turns(alloc, body.as_str())?;
        let ending = if *ends {
            Ending::Finished
        } else {
            Ending::Spent(1)
        };
        let endings = [Ending::Finished, ending];
        assert_eq!(rt; done.endings.as_slice(), endings.as_slice(), "{body}");
        assert_eq!(rt; done.history.len(), *calls, "{body}");
    }
    Ok(())
}

#[test]
fn conversions_and_heap_calls_take_turns(rt: HostRuntime) -> Result<(), Fail> {
    check_turns(&rt, rt.alloc(), TURNS.as_slice())
}

#[test]
fn a_text_grows(rt: HostRuntime) -> Result<(), AllocError> {
    let mut text = Text::new(rt.alloc());
    text.push(65)?;
    text.append(b"bc")?;
    assert_eq!(rt; text.bytes(), b"Abc".as_slice());
    Ok(())
}

#[test]
fn bytes_are_moved_whole(rt: HostRuntime) -> Result<(), Fail> {
    let mut src = MemSource::new(b"abc", 1, &[]);
    let bytes = read_all(rt.alloc(), &mut src).map_err(|_| "read")?;
    assert_eq!(rt; bytes.as_slice(), b"abc".as_slice());
    let mut src = InSource::new(b"over a reader".as_slice());
    let bytes = read_all(rt.alloc(), &mut src).map_err(|_| "read")?;
    assert_eq!(rt; bytes.as_slice(), b"over a reader".as_slice());
    let mut sink = MemSink::new(rt.alloc(), 2, 9, &[], &[])?;
    assert!(rt; write_all(&mut sink, b"abc").is_err());
    assert_eq!(rt; sink.taken(), b"ab".as_slice());
    assert_eq!(rt; sink.faults(), 1);
    let mut sink = OutSink::new(Vec::new(rt.alloc()));
    assert!(rt; write_all(&mut sink, b"to a writer").is_ok());
    assert_eq!(rt; sink.into_inner().as_slice(), b"to a writer".as_slice());
    Ok(())
}

#[test]
fn calm_streams_serve_a_run(rt: HostRuntime) -> Result<(), Fail> {
    let words = words_of(rt.alloc(), &["play", "--entry", "f"])?;
    let mut src = CalmSource::new(b"void f(void) { printf(\"%d\\n\", 1); }");
    let mut out = CalmSink::new();
    let mut err = CalmSink::new();
    let done = effsan_still(rt.alloc(), words.as_slice(), &mut src, &mut out, &mut err);
    assert_eq!(rt; done.status, 0);
    assert_eq!(rt; done.run.texts.len(), 3);
    Ok(())
}

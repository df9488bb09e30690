//! Why a text has no program, and on which line.

ghost use Rattle.std.specs.Prelude.{◌≡◌, ◌≤◌, length, filter};
ghost use Rattle.effsan_top.specs.Faults as spec;

/// Why a text has no program: it has no tokens, or else a directive or a macro is at fault, or else its syntax, or else it is
/// outside the form that runs. Of two reasons of one stage the first in the text is told, and of two at one token the one that
/// stands first here.
#[derive(Clone, Copy, Debug, PartialEq, Eq)]
pub enum FaultKind {
    /// A byte that begins no token.
    BadByte,
    /// A comment without its end.
    OpenComment,
    /// A string or a character constant without its end on its line.
    OpenString,
    /// A number that fits none of the types that it may have (C11 6.4.4.1).
    NumberTooLarge,
    /// A string or a character constant that means no bytes.
    BadEscape,
    /// One token too many, in the text itself or when its macros are replaced.
    TooManyTokens,
    /// An `#include` of no header of the profile.
    UnknownHeader,
    /// A directive that is none of the profile's.
    BadDirective,
    /// A macro whose replacement leads back to itself.
    MacroLoop,
    /// What is left is no unit of the profile's grammar.
    Syntax,
    /// A declaration or a function that does not run yet.
    NotYet,
}

/// The first fault of a text.
#[derive(Clone, Copy, Debug, PartialEq, Eq)]
pub struct Fault {
    pub kind: FaultKind,
    /// Counted from 1.
    pub line: usize,
}

impl FaultKind {
    /// As an error line says it.
    pub fn name(self) -> &'static [u8]
        ensures { result.now ≡ spec.fault_name self }
    {
        match self {
            FaultKind::BadByte => b"BadByte",
            FaultKind::OpenComment => b"OpenComment",
            FaultKind::OpenString => b"OpenString",
            FaultKind::NumberTooLarge => b"NumberTooLarge",
            FaultKind::BadEscape => b"BadEscape",
            FaultKind::TooManyTokens => b"TooManyTokens",
            FaultKind::UnknownHeader => b"UnknownHeader",
            FaultKind::BadDirective => b"BadDirective",
            FaultKind::MacroLoop => b"MacroLoop",
            FaultKind::Syntax => b"Syntax",
            FaultKind::NotYet => b"NotYet",
        }
    }
}

/// How many line ends there are.
fn line_ends(text: &[u8]) -> usize
    ensures value { result ≡ length (filter spec.is_line_end text.now) }
    ensures few { result ≤ length text.now }
{
    let mut count = 0;
    for byte in text {
        if *byte == b'\n' {
            count += 1;
        }
    }
    count
}

/// The line of an offset in a text, counted from 1.
pub fn line_at(text: &[u8], offset: u32) -> usize
    ensures { result ≡ spec.line_at text.now offset }
{
    let offset = offset as usize;
    if offset < text.len() {
        1 + line_ends(&text[..offset])
    } else {
        1 + line_ends(text)
    }
}

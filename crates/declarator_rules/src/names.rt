//! Names, and the scopes in which they are declared (C11 6.2.1, 6.7p3).

ghost use Rattle.std.specs.Prelude.{◌≡◌, ℕ, ◌||◌, map, take, is_some};
ghost use Rattle.static_rules.specs.Predefined as predefined;
ghost use Rattle.static_rules.specs.States as states;
ghost use Rattle.rule_answers.specs.Gives.{GivesState};

use c_types::TypeNo;
use operand_plans::{
    CHAR, INT, LONG, SHORT, UNSIGNED_CHAR, UNSIGNED_INT, UNSIGNED_LONG, UNSIGNED_SHORT,
};
use rule_answers::{fault, out_of_memory};
use static_rules::{BuiltIn, CheckError, CheckKind, Made, State, Symbol, Where};

/// The functions that each text has, by their names.
const FUNCTIONS: [(&[u8], BuiltIn); 10] = [
    (b"malloc", BuiltIn::Malloc),
    (b"calloc", BuiltIn::Calloc),
    (b"free", BuiltIn::Free),
    (b"memcpy", BuiltIn::Memcpy),
    (b"memset", BuiltIn::Memset),
    (b"strlen", BuiltIn::Strlen),
    (b"printf", BuiltIn::Printf),
    (b"puts", BuiltIn::Puts),
    (b"putchar", BuiltIn::Putchar),
    (b"atomic_fetch_add", BuiltIn::AtomicFetchAdd),
];

/// The typedefs that each text has (C11 7.19, 7.20.1.1).
const TYPEDEFS: [(&[u8], TypeNo); 10] = [
    (b"size_t", UNSIGNED_LONG),
    (b"ptrdiff_t", LONG),
    (b"int8_t", CHAR),
    (b"int16_t", SHORT),
    (b"int32_t", INT),
    (b"int64_t", LONG),
    (b"uint8_t", UNSIGNED_CHAR),
    (b"uint16_t", UNSIGNED_SHORT),
    (b"uint32_t", UNSIGNED_INT),
    (b"uint64_t", UNSIGNED_LONG),
];

/// What stands under a name in a table.
fn entry_of<A: Copy>(mut table: &[(&[u8], A)], word: &[u8]) -> Option<A>
    ensures { result ≡ predefined.entry_of (map (λ e. (e.0.now, e.1)) table.entry.now) word.now }
{
    while let [entry, rest @ ..] = table {
        if entry.0 == word {
            return Some(entry.1);
        }
        table = rest;
    }
    None
}

/// The function of this name that each text has.
pub fn given_of(spelling: &[u8]) -> Option<BuiltIn>
    ensures { result ≡ predefined.entry_of predefined.functions spelling.now }
{
    entry_of(&FUNCTIONS, spelling)
}

fn typedef_of(spelling: &[u8]) -> Option<TypeNo>
    ensures { result ≡ predefined.entry_of predefined.typedefs spelling.now }
{
    entry_of(&TYPEDEFS, spelling)
}

fn null_of(spelling: &[u8]) -> Option<Symbol>
    ensures { result ≡ predefined.as_null spelling.now }
{
    if b"NULL".as_slice() == spelling {
        Some(Symbol::Null)
    } else {
        None
    }
}

/// Whether the spelling is the name of a function that each text has.
pub fn is_given(spelling: &[u8]) -> bool
    ensures { result ≡ is_some (predefined.entry_of predefined.functions spelling.now) }
{
    given_of(spelling).is_some()
}

/// What a name means in every text.
#[tactic(auto, unfolding(static_rules::specs::Predefined::predefined))]
pub fn predefined(spelling: &[u8]) -> Option<Symbol>
    ensures { result ≡ predefined.predefined spelling.now }
{
    if let Some(which) = given_of(spelling) {
        return Some(Symbol::Given(which));
    }
    match typedef_of(spelling) {
        Some(kind) => Some(Symbol::Typedef(Made::Known(kind))),
        None => null_of(spelling),
    }
}

/// Whether no declaration of the innermost scope may declare the name: one does already, or each text has the function.
pub fn is_taken(place: Where, state: &State, given: bool, name: u32) -> bool
    ensures { result ≡ (given || is_some (states.symbol_here place state.now name)) }
{
    given
        || state
            .symbols
            .meaning_here(place.names_before, name)
            .is_some()
}

/// Declares a name that is new in the innermost scope and, as `given` says, no function's that each text has.
pub fn declared(
    place: Where,
    here: u32,
    state: &mut State,
    given: bool,
    name: u32,
    symbol: Symbol,
) -> Result<(), CheckError>
    ensures { GivesState (predefined.declared_if (given || is_some (states.symbol_here place state.old name)) here state.old name symbol) result state.new }
{
    if is_taken(place, state, given, name) {
        return Err(fault(CheckKind::Redefined, here));
    }
    match state.symbols.declare(name, symbol) {
        Ok(()) => Ok(()),
        Err(_) => Err(out_of_memory()),
    }
}

/// A new scope begins.
pub fn new_scope(place: Where, state: &State) -> Where
    ensures { result ≡ states.new_scope place state.now }
{
    Where {
        line: place.line,
        names_before: state.symbols.len(),
        tags_before: state.tags.len(),
        unevaluated: place.unevaluated,
        constant: place.constant,
        in_function: place.in_function,
    }
}

/// What was declared in a scope ends with it: so many names and tags stood before it.
pub fn close_scope(state: &mut State, names_before: usize, tags_before: usize)
    ensures { state.new ≡ record state.old { symbols = take names_before state.old.symbols; tags = take tags_before state.old.tags } }
{
    state.symbols.close(names_before);
    state.tags.close(tags_before);
}

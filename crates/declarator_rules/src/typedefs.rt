//! Typedefs (C11 6.7.8).

ghost use Rattle.std.specs.Prelude.{◌≡◌, MatchResult};
ghost use Rattle.declaration_rules.specs.Declarations as spec;
ghost use Rattle.rule_answers.specs.Faults.{want_of_memory};

use c_types::TypeNo;
use declaration_rules::Introduced;
use rule_answers::{in_table, out_of_memory};
use static_rules::{CheckError, Made, State, Symbol};

/// What a typedef means, whose type has a number: a function type has none.
fn typedef_meaning(made: Made, kind: TypeNo) -> Made
    ensures { result ≡ spec.typedef_meaning made kind }
{
    match made {
        Made::Function(signature) => Made::Function(signature),
        Made::Known(_) | Made::Array(..) | Made::Open(_) => Made::Known(kind),
    }
}

/// Declares a typedef.
pub fn with_typedef(state: &mut State, introduced: Introduced, made: Made) -> Result<(), CheckError>
    ensures { MatchResult result (λ _. spec.with_typedef introduced (made, state.old) ≡ state.new) (λ e. e ≡ want_of_memory) }
{
    let kind = match in_table(state, &made) {
        Ok(kind) => kind,
        Err(_) => return Err(out_of_memory()),
    };
    let meaning = Symbol::Typedef(typedef_meaning(made, kind));
    match state.symbols.declare(introduced.name, meaning) {
        Ok(()) => Ok(()),
        Err(_) => Err(out_of_memory()),
    }
}

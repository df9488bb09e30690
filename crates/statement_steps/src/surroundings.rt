//! What stands around the parts of a statement.

ghost use Rattle.std.specs.Prelude.{◌≡◌};
ghost use Rattle.declaration_rules.specs.Statements as spec;

use c_types::TypeNo;
use declaration_rules::Inside;

/// Around the body of a function whose result has this type.
pub fn in_function_of(kind: TypeNo) -> Inside
    ensures { result ≡ spec.in_function_of kind }
{
    Inside {
        result: kind,
        in_loop: false,
        in_switch: false,
        directly: None,
    }
}

/// Around a part that does not stand directly in the block of a `switch`.
pub fn deeper(around: Inside) -> Inside
    ensures { result ≡ spec.deeper around }
{
    Inside {
        result: around.result,
        in_loop: around.in_loop,
        in_switch: around.in_switch,
        directly: None,
    }
}

/// Around the body of a loop.
pub fn in_a_loop(around: Inside) -> Inside
    ensures { result ≡ spec.in_a_loop around }
{
    Inside {
        result: around.result,
        in_loop: true,
        in_switch: around.in_switch,
        directly: None,
    }
}

/// Around the items of the block of a `switch`, whose value has this promoted type.
pub fn in_a_switch(around: Inside, kind: TypeNo) -> Inside
    ensures { result ≡ spec.in_a_switch around kind }
{
    Inside {
        result: around.result,
        in_loop: around.in_loop,
        in_switch: true,
        directly: Some(kind),
    }
}

//! An expression that has been read, and may still be the first part of a larger one.

ghost use Rattle.c_grammar.specs.Limits.{max_depth};
ghost use Rattle.c_grammar.specs.Operators.{tightness};
ghost use Rattle.std.specs.Prelude.{◌<◌};
ghost use Rattle.grammar_descent.specs.ExpressionSteps as spec;
ghost use Rattle.expression_parser.specs.Growing.{GivesFound};

use c_grammar::{Expression, Level};
use token_reader::{ParseError, Reader};

/// The node, its height, and its level.
#[derive(Drop)]
pub struct Growing {
    pub node: Expression,
    pub height: u32,
    pub level: Level,
}

/// The node, whose parts have this height, unless that is greater than the depth. The reader stands after it.
pub fn node_within(
    depth: u32,
    reader: &Reader<'_>,
    node: Expression,
    high: u32,
    level: Level,
) -> Result<Growing, ParseError>
    requires { depth < max_depth }
    ensures { GivesFound result reader.now.state (spec.node_within depth node high (tightness level) reader.now.state) }
{
    if high > depth {
        return Err(reader.refuse());
    }
    Ok(Growing {
        node,
        height: high + 1,
        level,
    })
}

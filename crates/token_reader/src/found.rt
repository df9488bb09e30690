//! What phrases are read as: each with its height, the least depth that it needs.

use crate::parameter_names::ParameterNames;
use c_grammar::{Declarator, Expression, NameKind, Specs};

/// An expression.
pub type FoundExpression = (Expression, u32);

/// Specifiers, and what a name is that is declared by them.
#[derive(Debug, Drop)]
pub struct FoundSpecs {
    pub node: Specs,
    pub kind: NameKind,
    pub height: u32,
}

/// A declarator, the number of the name that it declares, and what the first list of parameters after the name declares.
#[derive(Debug, Drop)]
pub struct FoundDeclarator {
    pub node: Declarator,
    pub name: Option<u32>,
    pub own: Option<ParameterNames>,
    pub height: u32,
}

//! The syntax tree of the C profile, after C11 6.5 to 6.9. Which tokens derive which tree is said in `specs/`.
#![tactic(auto)]

mod limits;
mod phrases;
mod statements;
mod units;
mod words;

pub use limits::{MAX_DEPTH, MAX_NODES};
pub use phrases::{
    Declarator, Enumerator, Expression, Member, Parameter, Specifier, Specs, TypePhrase,
};
pub use statements::{
    Block, BlockItem, Declaration, ForStart, InitDeclarator, Initialiser, Statement,
};
pub use units::{External, Function, TypeName, Unit};
pub use words::{
    Aggregate, Assignment, BasicType, BasicWord, Binary, Level, NameKind, Naming, Place, Postfix,
    Prefix, Qualifier, Selection, Storage,
};

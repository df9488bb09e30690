//! Blocks, and the variables that are theirs (C11 6.8.2, 6.8.5.3p1).

ghost use Rattle.std.specs.Prelude.{◌≡◌, []};
ghost use Rattle.c_tree.specs.declared.statements.ForStart.TheVariants as first;
ghost use Rattle.declaration_rules.specs.Statements as spec;

use c_tree::{Block, ForStart, Initial, Statement};
use sqlite_items::Items;
use static_rules::State;
use std::alloc::Global;
use std::mem;

/// A block begins, which has no variables yet: those of the block around it.
pub fn begin_block(alloc: Global, state: &mut State) -> Items<u32>
    ensures outer { result ≡ state.old.block }
    ensures after { state.new ≡ spec.in_block state.old [] }
{
    mem::replace(&mut state.block, Items::new(alloc))
}

/// A block ends that began on a line, and the one around it, of these variables, goes on.
pub fn end_block(state: &mut State, line: u32, outer: Items<u32>, items: Items<Statement>) -> Block
    ensures made { result ≡ record { line = line; variables = state.old.block; items = items } }
    ensures after { state.new ≡ spec.in_block state.old outer }
{
    Block {
        line,
        variables: mem::replace(&mut state.block, outer),
        items,
    }
}

/// The declaration of a `for` ends that began on a line. The block around it, of these variables, goes on.
pub fn end_for_declaration(
    state: &mut State,
    line: u32,
    outer: Items<u32>,
    stores: Items<Initial>,
) -> ForStart
    ensures made { result ≡ first.Declaration state.old.block line stores }
    ensures after { state.new ≡ spec.in_block state.old outer }
{
    ForStart::Declaration(mem::replace(&mut state.block, outer), line, stores)
}

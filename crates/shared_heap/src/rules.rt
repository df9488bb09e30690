use layout_table::Table;

/// What decides which calls a region allows: its number, and the table of the types that calls may name. No value of it is
/// made.
pub struct Rules {
    pub region: u32,
    pub table: Table,
}

//! That threads may share tables of types.

use crate::table::TypeTable;

fn takes<T: Send>() {}

fn shares<T: Sync>() {}

fn threads_take_tables() {
    takes::<TypeTable>();
}

fn threads_share_tables() {
    shares::<TypeTable>();
}

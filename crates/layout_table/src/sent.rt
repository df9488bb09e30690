//! That threads may take and share layout tables.

use crate::table::Table;

fn takes<T: Send>() {}

fn shares<T: Sync>() {}

fn threads_take_tables() {
    takes::<Table>();
}

fn threads_share_tables() {
    shares::<Table>();
}

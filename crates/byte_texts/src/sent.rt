//! That threads may take and share texts.

use crate::Text;

fn takes<T: Send>() {}

fn shares<T: Sync>() {}

fn threads_take_texts() {
    takes::<Text>();
}

fn threads_share_texts() {
    shares::<Text>();
}

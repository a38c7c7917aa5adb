//! A shared book may be shared between threads, and a pass moved to one.

use crate::parts::{Pass, SharedBook};

/// Can be called only on what threads may share.
fn may_be_shared<T: Sync>(_value: &T) {}

/// Can be called only on what may move to another thread.
fn may_be_moved<T: Send>(_value: &T) {}

/// Compiles only where a `SharedBook` is `Sync` and a `Pass` is `Send`.
pub fn crosses_threads(book: &SharedBook, pass: &Pass) {
    may_be_shared(book);
    may_be_moved(pass);
}

//! What is known of a caller beside what it does: the calls that it has made. The definitions
//! speak of books; the program keeps none.

use rht_model::{Call, Finished};
use std::collections::LinkedList;

/// The calls of one caller.
pub struct Book {
    /// The call in progress.
    pub call: Option<Call>,
    /// How many operations it has made.
    pub steps: u64,
    /// The calls that have ended, in order.
    pub finished: LinkedList<Finished>,
}

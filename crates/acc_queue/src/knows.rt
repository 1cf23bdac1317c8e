//! What a seat at the progress words knows. Nothing here has bytes: it exists for contracts alone.

use std::collections::LinkedList;

/// Whether it raises the words, the numbers that it has published, or has seen, and how often it read.
/// No value of it is made.
pub(crate) struct Knows {
    pub writes: bool,
    pub numbers: LinkedList<u64>,
    pub reads: u64,
}

use heap_model::Entry;
use std::collections::LinkedList;

/// What a seat knows: the numbers that it has, each with what was made under it; its last stamp; the region that it
/// holds, or 0, with the list that it found there; and, where it keeps the count of numbers, how many were made. No
/// value of it is made.
pub struct View {
    pub owns: LinkedList<(u32, LinkedList<Entry>)>,
    pub last: u64,
    pub region: u32,
    pub noted: LinkedList<Entry>,
    pub keeps: bool,
    pub made: u32,
}

// What a seat at the table of jobs knows. No value of this type is made.
use std::collections::LinkedList;

pub struct View<T> {
    /// How many of the 16 parts of the right to claim it has that have not ended.
    pub live: u64,
    /// Those that drew a number past the last job.
    pub ended: u64,
    /// The numbers that it drew.
    pub drawn: LinkedList<u64>,
    /// The job that it has, with its number, as it was.
    pub taken: Option<(u64, T)>,
}

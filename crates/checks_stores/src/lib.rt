//! What no clause says of the crates of documents' versions, slots, batches and turns: memory that suffices,
//! values from outside, and threads that really run.
#![tactic(auto)]

#[cfg(test)]
mod batches;
#[cfg(test)]
mod slots;
#[cfg(test)]
mod stores;
#[cfg(test)]
mod turns;

//! What no clause says of copies for a new member: memory that suffices, and a copy that is cut off at each
//! call of a disk and goes on.
#![tactic(auto)]

#[cfg(test)]
mod copies;
#[cfg(test)]
mod documents;
#[cfg(test)]
mod noops;
#[cfg(test)]
mod stable;

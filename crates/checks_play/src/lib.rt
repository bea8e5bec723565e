//! What no clause says of sets that are played: memory that suffices, and values from outside.
#![tactic(auto)]

#[cfg(test)]
mod playing;

//! What no clause says of the protocol's parts: memory that suffices, and values from outside.
#![tactic(auto)]

#[cfg(test)]
mod copies;
#[cfg(test)]
mod parts;

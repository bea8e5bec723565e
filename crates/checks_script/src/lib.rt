//! What no clause says of scripts, of questions and of printed texts: memory that suffices, and values from
//! outside.
#![tactic(auto)]

#[cfg(test)]
mod copies;
#[cfg(test)]
mod entries;
#[cfg(test)]
mod found;
#[cfg(test)]
mod lines;
#[cfg(test)]
mod notation;
#[cfg(test)]
mod questions;
#[cfg(test)]
mod scripts;
#[cfg(test)]
mod traces;

//! What no clause says of the crates of bytes, disks and records: memory that suffices, values from outside,
//! and one fault in mid-stream.
#![tactic(auto)]

#[cfg(test)]
mod codec;
#[cfg(test)]
mod copies;
#[cfg(test)]
mod disks;
#[cfg(test)]
mod entries;
#[cfg(test)]
mod entries_as_bytes;
#[cfg(test)]
mod first_form;
#[cfg(test)]
mod journals;
#[cfg(test)]
mod records;
#[cfg(test)]
mod streams;
#[cfg(test)]
mod values;

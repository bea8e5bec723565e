//! What no clause says of one set that callers and readers step: that they run side by side, and that a
//! stream gets everything that is committed.
#![tactic(auto)]

#[cfg(test)]
mod callers;
#[cfg(test)]
mod closing;
#[cfg(test)]
mod copies;
#[cfg(test)]
mod failover;
#[cfg(test)]
mod readers;
#[cfg(test)]
mod sessions;
#[cfg(test)]
mod shared;

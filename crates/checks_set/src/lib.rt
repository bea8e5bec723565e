//! What no clause says of a program that runs a whole set: how a run ends with ample memory, in which call a
//! disk or a sink fails, and that the lists of a block run side by side.
#![tactic(auto)]

#[cfg(test)]
mod block_alone;
#[cfg(test)]
mod blocks;
#[cfg(test)]
mod failing_disks;
#[cfg(test)]
mod failing_sinks;
#[cfg(test)]
mod members;
#[cfg(test)]
mod restarts;
#[cfg(test)]
mod running;
#[cfg(test)]
mod traces;

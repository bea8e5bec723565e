// What holds of every linear read.
ghost use Rattle.safety_laws.specs.Laws.{InEveryRun};
ghost use Rattle.linear_read.specs.Linear.{LinearLaw};
ghost use Rattle.linear_read.specs.Written.{EntriesAreWritten};

use safety_laws::{leaders_keep, logs_rise, safe};

/// Each entry of a log, and each that a message carries, was written by an earlier event, in which a leader
/// of the entry's term put it into its log.
pub fn entries_are_written()
    ensures { InEveryRun EntriesAreWritten }
{}

/// A linear read shows what is left by a log that holds each write acknowledged at majority, at any node,
/// before the read.
pub fn linear_law()
    ensures { InEveryRun LinearLaw }
{
    safe();
    logs_rise();
    leaders_keep();
    entries_are_written();
}

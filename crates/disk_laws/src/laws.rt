ghost use Rattle.safety_laws.specs.Laws.{InEveryRun};
ghost use Rattle.disk_laws.specs.Acknowledged.{AcknowledgedEntriesAreNotLost, AcknowledgedEntriesStay, CommitPointsStay};
ghost use Rattle.disk_laws.specs.Kept.{CountedEntriesStay};

use linear_read::entries_are_written;
use safety_laws::{leaders_keep, logs_rise, numbers_stay_small, safe};

/// A member that was counted for what a primary has committed keeps that on its disks for ever, whatever is
/// rolled back, reconfigured, cut off or restarted, and whatever a failed store left.
pub fn counted_entries_stay()
    ensures { InEveryRun CountedEntriesStay }
{}

/// What was acknowledged at majority, and what any node has up to its commit point, stands on the disks of a
/// majority of the voters of the primary that committed it, those that it had counted, from then on and for
/// ever.
pub fn acknowledged_entries_stay()
    ensures acknowledged { InEveryRun AcknowledgedEntriesStay }
    ensures points { InEveryRun CommitPointsStay }
{
    safe();
    numbers_stay_small();
}

/// What was acknowledged at majority, or is later, no node loses once its journal has it, with all before it.
/// An entry that is committed only under a later one may be lost and come again.
pub fn acknowledged_entries_are_not_lost()
    ensures { InEveryRun AcknowledgedEntriesAreNotLost }
{
    safe();
    logs_rise();
    leaders_keep();
    entries_are_written();
    numbers_stay_small();
}

// Optimes of entries.
ghost use Rattle.std.specs.Prelude.{◌≡◌};
ghost use Rattle.oplog_entry.specs.Visible.{last_of};
ghost use Rattle.set_model.specs.Points.{earlier_of};

use oplog_entry::Entry;
use rs_optime::OpTime;

/// The earlier of two optimes.
pub fn earlier(one: OpTime, other: OpTime) -> OpTime
    ensures { result ≡ earlier_of one other }
{
    if one < other { one } else { other }
}

/// The optime of the last of some entries.
pub fn last_optime(entries: &[Entry]) -> OpTime
    ensures { result ≡ last_of entries.now }
{
    match entries.last() {
        Some(entry) => entry.optime,
        None => OpTime::ZERO,
    }
}

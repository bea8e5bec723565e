ghost use Rattle.std.specs.Prelude.{◌≡◌, List};
ghost use Rattle.std.specs.FinSet.{from_list, items};
ghost use Rattle.rs_optime.specs.declared.optime.OpTime.{OpTime};
ghost use Rattle.oplog_entry.specs.Visible as seen;

use oplog_entry::Entry;
use oplog_store::{OpenLog, Oplog};
use optime_slots::Slots;
use rs_optime::OpTime;

/// The optime of the last entry before the earliest open slot, or ZERO. Without an open slot it is
/// the last entry's.
#[tactic(auto, using(crate::proofs::Least::whole_is_visible, crate::proofs::Least::items_again))]
pub fn visible(slots: &Slots, log: &Oplog) -> OpTime
    ensures point { result ≡ seen.visible log.now.entries (items slots.now.slots) }

    // The slots may be listed in any order.
    ensures any_order { (listed : List OpTime) → from_list listed ≡ slots.now.slots
        → result ≡ seen.visible log.now.entries listed }
{
    match slots.least() {
        None => log.last(),
        Some(slot) => last_optime(log.before(slot)),
    }
}

/// `visible` of a log that reserves places for open slots.
#[tactic(auto, using(crate::proofs::Least::whole_is_visible, crate::proofs::Least::items_again))]
pub fn visible_open(slots: &Slots, log: &OpenLog) -> OpTime
    ensures { result ≡ seen.visible log.now.entries (items slots.now.slots) }
{
    let Some(slot) = slots.least() else {
        return log.last();
    };
    log.last_before(slot)
}

fn last_optime(entries: &[Entry]) -> OpTime
    ensures { result ≡ seen.last_of entries.now }
{
    match entries.last() {
        Some(entry) => entry.optime,
        None => OpTime::ZERO,
    }
}

// Laws about what clients are told.
ghost use Rattle.safety_laws.specs.Laws.{InEveryRun};
ghost use Rattle.client_laws.specs.Acknowledged.{AcknowledgedLogsChain};
ghost use Rattle.client_laws.specs.Linearizable.{ConfirmedLogsAreExact, LinearReadsAreExact, LinearReadsGrow, MajorityReadsAreShown};
ghost use Rattle.client_laws.specs.Told.{ConfirmedRetriesAreAcknowledged, GreaterNumbersAreTold, RetriesAreTold, WritesAreAcknowledgedOnce};

use linear_read::{entries_are_written, linear_law};
use safety_laws::{
    committed_logs_chain, entries_follow_zero, leaders_add_their_own, leaders_had_what_is_before,
    leaders_keep, logs_rise, next_optimes_are_last, safe, winner_completeness,
};

/// What a majority acknowledged is one log: of two acknowledged logs, one begins the other.
pub fn acknowledged_logs_chain()
    ensures { InEveryRun AcknowledgedLogsChain }
{
    safe();
    logs_rise();
    leaders_keep();
    entries_are_written();
    committed_logs_chain();
}

/// A linear read shows exactly the acknowledged entries that were written before it, and each later one shows
/// what it showed: linearizability, by the places at which entries were written. No law here says that a log
/// has the entries of one document in that order: an open writer holds its document.
pub fn linearizable()
    ensures logs { InEveryRun ConfirmedLogsAreExact }
    ensures reads { InEveryRun LinearReadsAreExact }
    ensures grow { InEveryRun LinearReadsGrow }
{
    safe();
    logs_rise();
    leaders_keep();
    entries_are_written();
    leaders_add_their_own();
    leaders_had_what_is_before();
    next_optimes_are_last();
    linear_law();
}

/// A linear read shows all that majority reads, at any node, showed before it.
pub fn majority_reads_are_shown()
    ensures { InEveryRun MajorityReadsAreShown }
{
    safe();
    logs_rise();
    leaders_keep();
    entries_are_written();
    entries_follow_zero();
    winner_completeness();
}

/// Once a session's write is acknowledged at majority, each later primary answers a retry as before, or that
/// the session moved on; it is never written again. No other optime of it is ever acknowledged.
pub fn writes_are_told_once()
    ensures told { InEveryRun RetriesAreTold }
    ensures greater { InEveryRun GreaterNumbersAreTold }
    ensures once { InEveryRun WritesAreAcknowledgedOnce }
{
    safe();
    logs_rise();
    leaders_keep();
    entries_are_written();
    committed_logs_chain();
}

/// A client knows that a retried write stays if the node that answered writes a note in the same term, and a
/// majority acknowledges that note.
pub fn confirmed_retries()
    ensures { InEveryRun ConfirmedRetriesAreAcknowledged }
{
    safe();
    logs_rise();
    leaders_keep();
    entries_are_written();
    linearizable();
}

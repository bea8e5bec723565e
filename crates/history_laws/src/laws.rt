ghost use Rattle.safety_laws.specs.Laws.{InEveryRun};
ghost use Rattle.history_laws.specs.Documents.{DocumentsAreInOrder};
ghost use Rattle.history_laws.specs.Growing.{CheckpointsAreShown, MajorityReadsGrow};

use linear_read::entries_are_written;
use safety_laws::{
    leaders_add_their_own, leaders_keep, logs_rise, next_optimes_are_last, rollback_kept, safe,
};

/// In each log the entries of one document stand in the order of the events that wrote them: an open writer
/// holds its document until it commits.
pub fn documents_are_in_order()
    ensures { InEveryRun DocumentsAreInOrder }
{
    safe();
    logs_rise();
    leaders_keep();
    leaders_add_their_own();
    next_optimes_are_last();
    entries_are_written();
}

/// As long as a node stays up, its majority reads show what earlier ones showed there; and they show all up
/// to its last checkpoint, right after a restart too.
pub fn majority_reads_grow()
    ensures grow { InEveryRun MajorityReadsGrow }
    ensures checkpoints { InEveryRun CheckpointsAreShown }
{
    safe();
    rollback_kept();
}

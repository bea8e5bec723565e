// Laws of reads, for readers: each function's contract is the law, and its body does nothing.
ghost use Rattle.std.specs.Prelude.{◌≡◌, false};
ghost use Rattle.rs_optime.specs.declared.optime.OpTime.{OpTime};
ghost use Rattle.rs_optime.specs.Later.{earlier_of};
ghost use Rattle.version_store.specs.Past.{Past, is_before, shown, back_to, pruned, IsRising};

/// After `prune`, a read at or after its optime shows what it showed before.
#[tactic(auto, using(crate::proofs::LawLemmas::pruned_shows))]
pub fn a_prune_is_not_seen()
    ensures { (past : Past) (at read : OpTime) → IsRising past.versions → is_before read at ≡ false
        → shown read (pruned at past).versions ≡ shown read past.versions }
{}

/// After `back_to`, a read shows what the earlier of the two optimes showed.
#[tactic(auto, using(crate::proofs::LawLemmas::back_to_shows))]
pub fn going_back_shows_the_earlier()
    ensures { (past : Past) (at read : OpTime)
        → shown read (back_to at past).versions ≡ shown (earlier_of read at) past.versions }
{}

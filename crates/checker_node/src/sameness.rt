// Whether two nodes are alike, and a number by which nodes are looked up.
ghost use Rattle.std.specs.Prelude.{◌≡◌, IsTrue};
ghost use Rattle.explore_laws.specs.Alike.{AlikeNodes};
ghost use Rattle.checker_node.specs.Same.{SameHeard, SamePoints, SameRole, SameTables};

use crate::node::Node;
use bson_doc::{Doc, IdKey, Text};
use election_core::DryRun;
use member_config::Config;
use rs_optime::OpTime;
use set_model::Role;

// A place, with the document that was there.
type Lost = ((Text, IdKey), Option<Doc>);

impl Node {
    /// Whether the node is alike another: the same but for its records, which come to the same, and for its
    /// votes where it is no candidate. A node with a store in doubt isn't compared.
    #[tactic(auto, using(crate::proofs::SameLemmas::alike))]
    pub fn same(&self, other: &Node) -> bool
        ensures { IsTrue result → AlikeNodes self.now other.now }
    {
        self.has_same_points(other)
            && self.has_same_role(other)
            && self.has_same_tables(other)
            && self.has_same_heard(other)
    }

    fn has_same_points(&self, other: &Node) -> bool
        ensures { IsTrue result → SamePoints self.now other.now }
    {
        self.seen == other.seen
            && self.durable == other.durable
            && self.applied == other.applied
            && self.commit == other.commit
            && self.stable == other.stable
            && self.rollback == other.rollback
            && self.clock == other.clock
    }

    fn has_same_role(&self, other: &Node) -> bool
        ensures { IsTrue result → SameRole self.now other.now }
    {
        self.number == other.number
            && self.up == other.up
            && self.doubt.is_none()
            && other.doubt.is_none()
            && self.term == other.term
            && self.vote == other.vote
            && self.role == other.role
            && (self.role != Role::Candidate || self.tally == other.tally)
    }

    fn has_same_tables(&self, other: &Node) -> bool
        ensures { IsTrue result → SameTables self.now other.now }
    {
        self.log.same(&other.log)
            && self.slots.same(&other.slots)
            && self.writers.same(&other.writers)
            && self.journal.same(&other.journal)
            && same_lost(self.lost.as_slice(), other.lost.as_slice())
    }

    fn has_same_heard(&self, other: &Node) -> bool
        ensures { IsTrue result → SameHeard self.now other.now }
    {
        self.first.same(&other.first)
            && self.config.same(&other.config)
            && self.progress.same(&other.progress)
            && self.known.same(&other.known)
            && same_run(&self.dry_tally, &other.dry_tally)
    }

    /// A number for the node, the same for nodes that are alike.
    pub fn hash(&self) -> u64 {
        let mut hash = mixed(u64::from(self.number), u64::from(self.up));
        hash = mixed(hash, self.term);
        hash = mixed(hash, vote_number(self.vote));
        hash = mixed(hash, u64::from(self.role as u8));
        for at in [self.durable, self.applied, self.commit, self.stable] {
            hash = with_optime(hash, at);
        }
        hash = with_optime(hash, self.log.log().last());
        hash = with_optime(hash, self.journal.entries().last());
        hash = with_optime(hash, self.journal.point());
        hash = mixed(hash, self.journal.vote().term);
        hash = mixed(hash, u64::from(self.clock) ^ self.rollback);
        hash = mixed(hash, self.log.log().len() as u64);
        self.with_heard(with_config(hash, &self.config))
    }

    /// The hash, with what was heard of each member.
    fn with_heard(&self, hash: u64) -> u64 {
        let mut hash = hash;
        for member in self.config.members.as_slice() {
            if let Some((config, durable)) = self.progress.of(member.number) {
                hash = with_optime(mixed(hash, config.0), durable);
            }
            if let Some((last, primary)) = self.known.of(member.number) {
                hash = with_optime(mixed(hash, u64::from(primary)), last);
            }
        }
        hash
    }
}

fn same_run(one: &Option<DryRun>, other: &Option<DryRun>) -> bool
    ensures { IsTrue result → one.now ≡ other.now }
{
    match (one, other) {
        (Some(one), Some(other)) => one.same(other),
        (None, None) => true,
        _ => false,
    }
}

fn same_lost(one: &[Lost], other: &[Lost]) -> bool
    ensures { IsTrue result → one.now ≡ other.now }
{
    if one.len() != other.len() {
        return false;
    }
    for place in 0..one.len() {
        if !same_document(&one[place], &other[place]) {
            return false;
        }
    }
    true
}

fn same_document(one: &Lost, other: &Lost) -> bool
    ensures { IsTrue result → one.now ≡ other.now }
{
    one.0.cmp(&other.0).is_eq() && one.1 == other.1
}

fn vote_number(vote: Option<u32>) -> u64 {
    match vote {
        Some(node) => u64::from(node) + 1,
        None => 0,
    }
}

fn with_config(hash: u64, config: &Config) -> u64 {
    mixed(mixed(hash, config.term), u64::from(config.version))
}

/// The hash, with one number more.
pub fn mixed(hash: u64, number: u64) -> u64 {
    (hash ^ number)
        .wrapping_mul(0x9e37_79b9_7f4a_7c15)
        .rotate_left(29)
}

/// The hash, with an optime more.
pub fn with_optime(hash: u64, at: OpTime) -> u64 {
    mixed(mixed(hash, at.term), at.ts)
}

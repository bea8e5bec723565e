// Terms, the votes in them and configurations: steps that several commands and messages share.
ghost use Rattle.std.specs.Prelude.{◌≡◌, ◌≢◌, ◌^◌, ◌<◌, ◌≤◌, None, Some, IfSome, if◌then◌else◌};
ghost use Rattle.member_config.specs.Rule.{rule};
ghost use Rattle.member_config.specs.Voters.{voters};
ghost use Rattle.set_model.specs.Changes.{in_new_term, installed, stepped_down};
ghost use Rattle.set_model.specs.Stores.{config_record, stored, vote_record};
ghost use Rattle.set_model.specs.Votes.{is_elected, won};
ghost use Rattle.set_model.specs.declared.role.Role.TheVariants.{Secondary, Candidate};

use crate::State;
use commit_point::Progress;
use election_core::Tally;
use member_config::Config;
use repl_msg::Record;
use set_model::{Role, Store};
use vote_store::Vote;

/// The record of a term, with a vote or none.
pub fn vote_record(term: u64, candidate: Option<u32>) -> Store
    ensures { result ≡ vote_record term candidate }
{
    Store::Record(Record::Vote(Vote { term, candidate }))
}

impl State {
    /// Makes the node a secondary in this term, with this vote. The record of both is in the journal.
    pub fn enter_term(&mut self, item: &Store, term: u64, vote: Option<u32>)
        requires item { item.now ≡ vote_record term vote }
        requires above { self.old.node.term ≤ term }
        requires bound { term < 2 ^ 63 }
        requires vote { IfSome vote (λ voter. voter < 50) }
        ensures node { self.new.node ≡ in_new_term (stored self.old.node item.now) term vote }
        ensures spare { self.new.spare ≡ self.old.spare }
        ensures places { self.new.places ≡ self.old.places }
    {
        self.node_data.recall_sound();
        self.node_data.follow();
        self.role = Role::Secondary;
        self.term = term;
        self.records = self.records.with(item);
        self.vote = vote;
        self.progress = Progress::new(self.alloc);
        self.tally = None;
        self.dry_run = None;
    }

    /// The node becomes a secondary, and its counts are cleared.
    pub fn be_secondary(&mut self)
        ensures node { self.new.node ≡ stepped_down self.old.node }
        ensures spare { self.new.spare ≡ self.old.spare }
    {
        self.node_data.recall_sound();
        self.node_data.follow();
        self.role = Role::Secondary;
        self.progress = Progress::new(self.alloc);
        self.tally = None;
        self.dry_run = None;
    }

    /// The node has a vote in its term, whose record is stored.
    pub fn set_vote(&mut self, item: &Store, vote: u32)
        requires item { item.now ≡ vote_record self.old.node.term (Some vote) }
        requires vote { vote < 50 }
        ensures node { self.new.node ≡ record (stored self.old.node item.now) { vote = Some vote } }
        ensures spare { self.new.spare ≡ self.old.spare }
    {
        self.records = self.records.with(item);
        self.vote = Some(vote);
    }

    /// Makes a secondary a candidate with these votes.
    pub fn stand(&mut self, tally: Tally)
        requires role { self.old.node.role ≡ Secondary }
        requires counts { tally.voters ≡ voters self.old.node.config }
        ensures node { self.new.node ≡ record self.old.node { role = Candidate; tally = tally.yes } }
        ensures spare { self.new.spare ≡ self.old.spare }
    {
        self.role = Role::Candidate;
        self.tally = Some(tally);
    }

    /// Whether the node is a candidate that a majority voted for. If so, it has won.
    pub fn has_won(&mut self) -> bool
        requires role { self.old.node.role ≡ Candidate }
        ensures elected { result ≡ is_elected self.old.node }
        ensures node { self.new.node ≡ (if result then won self.old.node else self.old.node) }
        ensures spare { self.new.spare ≡ self.old.spare }
    {
        if !self.is_elected() {
            return false;
        }
        self.role = Role::Draining;
        true
    }

    fn is_elected(&self) -> bool
        requires role { self.now.node.role ≡ Candidate }
        ensures { result ≡ is_elected self.now.node }
    {
        let Some(tally) = &self.tally else {
            return false;
        };
        let count = tally.count();
        count.needed <= count.yes
    }

    /// Installs a configuration whose record is in the journal.
    pub fn have_config(&mut self, item: &Store, config: Config)
        requires item { item.now ≡ config_record config }
        requires lawful { rule config ≡ None }
        requires role { self.old.node.role ≢ Candidate }
        ensures node { self.new.node ≡ installed (stored self.old.node item.now) config }
        ensures spare { self.new.spare ≡ self.old.spare }
        ensures places { self.new.places ≡ self.old.places }
    {
        self.records = self.records.with(item);
        self.config = config;
    }
}

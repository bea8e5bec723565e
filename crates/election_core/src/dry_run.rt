ghost use Rattle.std.specs.Prelude.{◌≡◌, IsTrue, ◌≤◌, [], ◌∷◌, length, IfOk, OnOk, OnErr};
ghost use Rattle.member_config.specs.Voters.{majority, voters, with_vote};

use crate::tally::{Count, Tally};
use member_config::Config;
use rs_optime::Mem;
use std::alloc::Global;
use std::marker::Model;

/// Who would vote for a node in a term, among the voters of a configuration.
#[derive(Drop)]
pub struct DryRun {
    term: u64,
    config: Config,
    tally: Tally,
}

impl Model for DryRun {
    ghost use Rattle.std.specs.Prelude.{◌≡◌};
    ghost use Rattle.member_config.specs.Voters.{voters};
    ghost use Rattle.repl_msg.specs.Votes.{DryTally};
    ghost use Rattle.repl_msg.specs.Code.{tally_code};

    ghost Value = { DryTally };

    ghost coded = { tally_code };

    ghost view = { λ d. record { term = d.term; config = d.config; yes = d.tally.yes } };

    ghost invariant = { λ d. d.tally.voters ≡ voters d.config };
}

impl DryRun {
    /// Only the node's own vote.
    pub fn new(alloc: Global, own: u32, term: u64, config: Config) -> Mem<Self>
        requires { length config.members ≤ 50 }
        ensures { IfOk result (λ d. d ≡ record { term = term; config = config; yes = own ∷ [] }) }
    {
        let tally = Tally::new(alloc, own, &config)?;
        Ok(DryRun {
            term,
            config,
            tally,
        })
    }

    /// Counts a vote, if it is that of a voter not counted yet.
    pub fn add(&mut self, from: u32) -> Mem<Count>
        ensures ok { OnOk result
            (self.new ≡ record self.old { yes = with_vote (voters self.old.config) self.old.yes from }) }
        ensures count { IfOk result (λ c.
            c ≡ record { yes = length self.new.yes; needed = majority self.new.config }) }
        ensures err { OnErr result (self.new ≡ self.old) }
    {
        self.tally.add(from)
    }

    /// The term that it asks about.
    pub fn term(&self) -> u64
        ensures { result ≡ self.now.term }
    {
        self.term
    }

    /// Whether it is the same as another.
    pub fn same(&self, other: &DryRun) -> bool
        ensures { IsTrue result → self.now ≡ other.now }
    {
        self.term == other.term && self.config.same(&other.config) && self.tally.same(&other.tally)
    }

    /// The same dry run once more.
    pub fn copy(&self) -> Mem<Self>
        ensures { IfOk result (λ d. d ≡ self.now) }
    {
        Ok(DryRun {
            term: self.term,
            config: self.config.copy()?,
            tally: self.tally.copy()?,
        })
    }
}

ghost use Rattle.std.specs.Prelude.{◌≡◌, ◌≤◌, length, IfOk};
ghost use Rattle.member_config.specs.Config as ids;
ghost use Rattle.member_config.specs.Voters as votes;
ghost use Rattle.member_config.specs.Numbers.{is_among, outside};

use crate::{Config, Mem, Member};
use std::alloc::Global;

impl Config {
    /// Whether this configuration is newer: by term, then by version.
    pub fn is_newer(&self, than: &Config) -> bool
        ensures { result ≡ ids.is_newer self.now than.now }
    {
        self.term > than.term || (self.term == than.term && self.version > than.version)
    }

    /// How many votes decide: half of the voters, rounded down, plus one.
    pub fn majority(&self) -> u32
        requires { length self.now.members ≤ 50 }
        ensures { result ≡ votes.majority self.now }
    {
        voter_count(self.members.as_slice()) as u32 / 2 + 1
    }

    /// The numbers of the members that vote, in the order of the members.
    pub fn voters(&self, alloc: Global) -> Mem<Vec<u32>>
        ensures { IfOk result (λ v. v.items ≡ votes.voters self.now) }
    {
        let members = self.members.as_slice();
        members
            .iter()
            .filter(|m| m.votes)
            .map(|m| m.number)
            .collect(alloc)
    }

    /// Whether a member with this number votes.
    pub fn is_voter(&self, number: u32) -> bool
        ensures { result ≡ votes.is_voter self.now number }
    {
        has_vote(self.members.as_slice(), number)
    }

    /// Whether a member with this number has a priority above 0.
    pub fn is_electable(&self, number: u32) -> bool
        ensures { result ≡ votes.is_electable_in self.now number }
    {
        let mut members = self.members.as_slice().iter();
        members.any(|member| member.number == number && member.priority > 0)
    }

    /// Whether the voters of the two configurations differ by one at most: at most one number votes in only
    /// one of them.
    pub fn one_voter_apart(&self, other: &Config) -> bool
        ensures { result ≡ votes.is_one_voter_apart self.now other.now }
    {
        let (own, others) = (self.members.as_slice(), other.members.as_slice());
        voters_outside(own, others) + voters_outside(others, own) <= 1
    }
}

/// Whether one configuration is older than another, each given by its term and its version.
pub fn is_older(one: (u64, u32), other: (u64, u32)) -> bool
    ensures { result ≡ ids.is_older one other }
{
    one.0 < other.0 || (one.0 == other.0 && one.1 < other.1)
}

/// How many of some members vote.
pub(crate) fn voter_count(members: &[Member]) -> usize
    ensures count { result ≡ length (votes.voters_of members.now) }
    ensures within { result ≤ length members.now }
{
    let mut count = 0;
    for member in members {
        if member.votes {
            count += 1;
        }
    }
    count
}

/// Whether one of some members has this number, and votes.
fn has_vote(members: &[Member], number: u32) -> bool
    ensures { result ≡ is_among number (votes.voters_of members.now) }
{
    for member in members {
        if member.votes && member.number == number {
            return true;
        }
    }
    false
}

/// How many of some members vote, where none of the others with their number does.
fn voters_outside(members: &[Member], others: &[Member]) -> usize
    ensures count { result ≡ length (outside (votes.voters_of members.now) (votes.voters_of others.now)) }
    ensures within { result ≤ length members.now }
{
    let mut count = 0;
    for member in members {
        if member.votes && !has_vote(others, member.number) {
            count += 1;
        }
    }
    count
}

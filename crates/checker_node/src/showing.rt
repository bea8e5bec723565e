// What is asked of a node from outside.
ghost use Rattle.std.specs.Prelude.{◌≡◌};
ghost use Rattle.explore_laws.specs.Dead.{term_of};

use crate::node::Node;
use oplog_entry::Entry;
use set_model::Role;

impl Node {
    /// What it does in the set.
    pub fn role(&self) -> Role
        ensures { result ≡ self.now.role }
    {
        self.role
    }

    /// The term that it is in, or while it is down the one that its records have.
    pub fn known_term(&self) -> u64
        ensures { result ≡ term_of self.now }
    {
        if self.up {
            self.term
        } else {
            self.journal.vote().term
        }
    }

    /// The entries of its log.
    pub fn entries(&self) -> &[Entry]
        ensures { result.now ≡ self.now.log }
    {
        self.log.log().as_slice()
    }
}

// How a node that won begins to lead: steps that several commands and messages share.
ghost use Rattle.std.specs.Prelude.{◌≡◌, ◌-◌, ◌^◌, ◌<◌, ◌≤◌, false, IfOk, OnOk, OnErr};
ghost use Rattle.oplog_entry.specs.declared.entry.Op.TheVariants.{Noop};
ghost use Rattle.member_config.specs.Config.{in_term};
ghost use Rattle.set_model.specs.Changes.{logged};
ghost use Rattle.set_model.specs.Elections.{drained};
ghost use Rattle.set_model.specs.Points.{evaluated, last_point, next_optime};
ghost use Rattle.set_model.specs.Roles.{is_primary};
ghost use Rattle.set_model.specs.Stores.{stored, config_record};
ghost use Rattle.set_model.specs.declared.role.Role.TheVariants.{Draining, Primary};

use crate::State;
use bson_doc::Mem;
use commit_point::Progress;
use member_config::Config;
use rs_optime::OpTime;
use set_model::{Role, Store};
use std::thread::Threads;

/// The same members in a configuration of this term.
pub fn in_term(config: &Config, term: u64) -> Mem<Config>
    ensures { IfOk result (λ copy. copy ≡ in_term config.now term) }
{
    let mut copy = config.copy()?;
    copy.term = term;
    Ok(copy)
}

impl State {
    /// The node's configuration in its term.
    pub fn config_in_term(&self) -> Mem<Config>
        ensures { IfOk result (λ config. config ≡ in_term self.now.node.config self.now.node.term) }
    {
        in_term(&self.config, self.term)
    }

    /// Applies the whole log.
    pub fn apply_all<R: Threads + Sync>(&mut self, rt: &R) -> Mem<()>
        requires role { is_primary self.old.node.role ≡ false }
        ensures ok { OnOk result
            (self.new.node ≡ record self.old.node { applied = last_point self.old.node }) }
        ensures spare { self.new.spare ≡ self.old.spare }
        ensures err { OnErr result (self.new.node ≡ self.old.node) }
    {
        self.node_data.recall_sound();
        let last = self.node_data.last();
        self.node_data.apply_to(rt, last)?;
        Ok(())
    }

    /// Makes room for this many entries.
    pub fn reserve(&mut self, more: usize) -> Mem<()>
        ensures node { self.new.node ≡ self.old.node }
        ensures ok { OnOk result (more ≤ self.new.spare) }
    {
        self.unjournaled.reserve(more)?;
        self.node_data.reserve(more)
    }

    /// Makes the node primary, with its configuration in its own term, whose record is in the journal.
    pub fn lead(&mut self, item: &Store, config: Config)
        requires item { item.now ≡ config_record config }
        requires config { config ≡ in_term self.old.node.config self.old.node.term }
        requires role { self.old.node.role ≡ Draining }
        requires applied { self.old.node.applied ≡ last_point self.old.node }
        ensures node { self.new.node ≡ drained (stored self.old.node item.now) }
        ensures spare { self.new.spare ≡ self.old.spare }
    {
        self.node_data.make_writable();
        self.role = Role::Primary;
        self.records = self.records.with(item);
        self.config = config;
        self.progress = Progress::new(self.alloc);
    }

    /// A primary writes a no-op.
    pub fn log_noop(&mut self) -> OpTime
        requires role { self.old.node.role ≡ Primary }
        requires seen { self.old.node.seen < 2 ^ 64 - 1 }
        requires room { 0 < self.old.spare }
        ensures at { result ≡ next_optime self.old.node }
        ensures node { self.new.node ≡ logged self.old.node Noop None }
    {
        self.node_data.recall_sound();
        let at = self.next();
        self.node_data.append_noop(at);
        self.node_data.recall_sound();
        self.unjournaled.add(at);
        at
    }

    /// A primary's commit point moves to what a majority of the voters has reached.
    pub fn evaluate(&mut self)
        ensures node { self.new.node ≡ evaluated self.old.node }
        ensures spare { self.new.spare ≡ self.old.spare }
    {
        if self.role == Role::Primary {
            self.commit = self.progress.advance(
                &self.config,
                self.term,
                self.number,
                self.durable,
                self.commit,
            );
        }
    }
}

// New configurations.
ghost use Rattle.std.specs.Prelude.{◌≡◌, ◌≤◌, None, length, IfOk};
ghost use Rattle.part_laws.specs.Points.{refusal_of};
ghost use Rattle.set_model.specs.Reconfig as reconfigs;
ghost use Rattle.checker_node.specs.Done.{Does};

use crate::answer::Answer;
use crate::elections::in_term;
use crate::node::Node;
use bson_doc::Mem;
use member_config::Config;
use reconfig_core::{ConfigRefusal, check};
use repl_msg::Record;
use set_model::{Refusal, Reply, Role, Store};

fn refusal_of(why: ConfigRefusal) -> Refusal
    ensures { result ≡ refusal_of why }
{
    match why {
        ConfigRefusal::WrongVersion => Refusal::WrongVersion,
        ConfigRefusal::ConfigRule(rule) => Refusal::ConfigRule(rule),
        ConfigRefusal::PrimaryNotMember => Refusal::PrimaryNotMember,
        ConfigRefusal::TwoVoters => Refusal::TwoVoters,
        ConfigRefusal::ConfigNotCommitted { count, needed } => {
            Refusal::ConfigNotCommitted { count, needed }
        }
        ConfigRefusal::TermNotCommitted(commit) => Refusal::TermNotCommitted(commit),
        ConfigRefusal::OplogNotCommitted { count, needed } => {
            Refusal::OplogNotCommitted { count, needed }
        }
        ConfigRefusal::UnknownMember(number) => Refusal::UnknownMember(number),
    }
}

impl Node {
    /// Why the node doesn't take a configuration, in a set of this size.
    fn reconfig_refusal(&self, nodes: u32, config: &Config) -> Option<Refusal>
        requires { length self.now.config.members ≤ 50 }
        ensures { result ≡ reconfigs.reconfig_refusal nodes self.now config.now }
    {
        if self.role != Role::Primary {
            return Some(Refusal::NotPrimary);
        }
        match check(
            &self.config,
            config,
            self.number,
            nodes,
            self.term,
            &self.progress,
            self.durable,
            self.commit,
        ) {
            Ok(()) => None,
            Err(why) => Some(refusal_of(why)),
        }
    }

    /// Stores a new configuration, and goes by it.
    pub fn reconfig(&mut self, nodes: u32, config: &Config, failed: &mut Option<u32>) -> Mem<Answer>
        requires settled { self.old.doubt ≡ None }
        requires members { length self.old.config.members ≤ 50 }
        ensures { IfOk result (λ answer.
            Does (reconfigs.reconfig nodes self.old config.now) failed.old failed.new answer self.new) }
    {
        if let Some(why) = self.reconfig_refusal(nodes, config) {
            return Ok(self.refuses(why));
        }
        let config = in_term(config, self.term)?;
        if !self.store_other(Store::Record(Record::Config(config.copy()?)), failed)? {
            return Ok(self.failed());
        }
        let (term, version) = (config.term, config.version);
        self.config = config;
        self.evaluate();
        Ok(self.replies(Reply::Config { term, version }))
    }
}

// Lists of a question's parts, which contracts see as lists.
ghost use Rattle.std.specs.Prelude.{◌≡◌, [], ◌∷◌, ◌++◌, OnOk};
ghost use Rattle.explore_words.specs.Wants.{longer_last};

use crate::question::{Act, Look, Want};
use bson_doc::Mem;
use set_model::Command;
use std::alloc::Global;
use std::marker::Model;

/// Commands, in order.
#[derive(Drop)]
pub struct Commands {
    commands: Vec<Command>,
}

impl Model for Commands {
    ghost use Rattle.std.specs.Prelude.{List};
    ghost use Rattle.std.specs.Coded.{coded_list};
    ghost use Rattle.set_model.specs.declared.command.Command.{Command};
    ghost use Rattle.set_model.specs.contracts.command.Command.{the_row};

    ghost Value = { List Command };

    ghost coded = { coded_list the_row.coded };

    ghost view = { λ c. c.commands.items };
}

impl Commands {
    pub(crate) fn new(alloc: Global) -> Self
        ensures { result ≡ [] }
    {
        Commands {
            commands: Vec::new(alloc),
        }
    }

    /// The commands in their order.
    pub fn as_slice(&self) -> &[Command]
        ensures { result.now ≡ self.now }
    {
        &self.commands
    }

    pub(crate) fn push(&mut self, command: Command) -> Mem<()>
        ensures { OnOk result (self.new ≡ self.old ++ command ∷ []) }
    {
        self.commands.push(command)?;
        Ok(())
    }
}

/// The acts of a question.
#[derive(Drop)]
pub struct Acts {
    acts: Vec<Act>,
}

impl Model for Acts {
    ghost use Rattle.std.specs.Prelude.{List};
    ghost use Rattle.std.specs.Coded.{coded_list};
    ghost use Rattle.explore_words.specs.declared.question.Act.{Act};
    ghost use Rattle.explore_words.specs.contracts.question.Act.{the_row};

    ghost Value = { List Act };

    ghost coded = { coded_list the_row.coded };

    ghost view = { λ a. a.acts.items };
}

impl Acts {
    pub(crate) fn new(alloc: Global) -> Self
        ensures { result ≡ [] }
    {
        Acts {
            acts: Vec::new(alloc),
        }
    }

    /// The acts in their order.
    pub fn as_slice(&self) -> &[Act]
        ensures { result.now ≡ self.now }
    {
        &self.acts
    }

    pub(crate) fn push(&mut self, act: Act) -> Mem<()>
        ensures { OnOk result (self.new ≡ self.old ++ act ∷ []) }
    {
        self.acts.push(act)?;
        Ok(())
    }
}

/// The wants of a question.
#[derive(Drop)]
pub struct Wants {
    wants: Vec<Want>,
}

impl Model for Wants {
    ghost use Rattle.std.specs.Prelude.{List};
    ghost use Rattle.std.specs.Coded.{coded_list};
    ghost use Rattle.explore_words.specs.declared.question.Want.{Want};
    ghost use Rattle.explore_words.specs.contracts.question.Want.{the_row};

    ghost Value = { List Want };

    ghost coded = { coded_list the_row.coded };

    ghost view = { λ w. w.wants.items };
}

impl Wants {
    pub(crate) fn new(alloc: Global) -> Self
        ensures { result ≡ [] }
    {
        Wants {
            wants: Vec::new(alloc),
        }
    }

    /// The wants in their order.
    pub fn as_slice(&self) -> &[Want]
        ensures { result.now ≡ self.now }
    {
        &self.wants
    }

    pub(crate) fn push(&mut self, want: Want) -> Mem<()>
        ensures { OnOk result (self.new ≡ self.old ++ want ∷ []) }
    {
        self.wants.push(want)?;
        Ok(())
    }
}

/// The looks of a want.
#[derive(Drop)]
pub struct Looks {
    looks: Vec<Look>,
}

impl Model for Looks {
    ghost use Rattle.std.specs.Prelude.{List};
    ghost use Rattle.std.specs.Coded.{coded_list};
    ghost use Rattle.explore_words.specs.declared.question.Look.{Look};
    ghost use Rattle.explore_words.specs.contracts.question.Look.{the_row};

    ghost Value = { List Look };

    ghost coded = { coded_list the_row.coded };

    ghost view = { λ l. l.looks.items };
}

impl Looks {
    pub(crate) fn new(alloc: Global) -> Self
        ensures { result ≡ [] }
    {
        Looks {
            looks: Vec::new(alloc),
        }
    }

    /// The looks in their order.
    pub fn as_slice(&self) -> &[Look]
        ensures { result.now ≡ self.now }
    {
        &self.looks
    }

    pub(crate) fn push(&mut self, look: Look) -> Mem<()>
        ensures { OnOk result (self.new ≡ self.old ++ look ∷ []) }
    {
        self.looks.push(look)?;
        Ok(())
    }

    /// Goes on with the text of the last look.
    #[tactic(auto, using(crate::proofs::WantsLonger::last_longer))]
    pub(crate) fn lengthen_last(&mut self, alloc: Global, more: &str) -> Mem<()>
        ensures { OnOk result (self.new ≡ longer_last more.now self.old) }
    {
        let Some(last) = self.looks.pop() else {
            return Ok(());
        };
        self.looks.push(last.lengthened(alloc, more)?)?;
        Ok(())
    }
}

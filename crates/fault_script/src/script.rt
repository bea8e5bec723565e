// What a script is.
ghost use Rattle.std.specs.Prelude.{◌≡◌, [], ◌∷◌, ◌++◌, IfOk, OnOk, MatchOption};

use crate::lists::Threads;
use bson_doc::Mem;
use set_model::Command;
use std::alloc::Global;
use std::marker::Model;

/// At most this many places of parts that were taken out are kept.
const MOST_SPARE: usize = 1024;

/// A script: the sizes of its set, and what is done in order.
#[derive(Drop)]
pub struct Script {
    /// How many nodes the set has, from 1 on. They are numbered from 0.
    pub nodes: u32,
    /// How many of the members have a vote.
    pub voters: u32,
    /// How many nodes, the first ones, are members of the first configuration.
    pub members: u32,
    /// Its commands and blocks, in order.
    pub parts: Parts,
}

impl Script {
    /// A copy of the script.
    pub fn copy(&self) -> Mem<Script>
        ensures { IfOk result (λ s. s ≡ self.now) }
    {
        Ok(Script {
            nodes: self.nodes,
            voters: self.voters,
            members: self.members,
            parts: self.parts.copy()?,
        })
    }
}

/// A part of a script.
#[derive(Drop)]
pub enum Part {
    /// A command and the number of its line, counted from 1.
    Line(u32, Command),
    /// The threads of a block, which run side by side.
    Par(Threads),
}

impl Part {
    /// A copy of the part.
    pub fn copy(&self) -> Mem<Part>
        ensures { IfOk result (λ p. p ≡ self.now) }
    {
        Ok(match self {
            Part::Line(number, command) => Part::Line(*number, command.copy()?),
            Part::Par(threads) => Part::Par(threads.copy()?),
        })
    }
}

/// The parts of a script, in order.
#[derive(Drop)]
pub struct Parts {
    parts: Vec<Part>,
}

impl Model for Parts {
    ghost use Rattle.std.specs.Prelude.{List};
    ghost use Rattle.std.specs.Coded.{coded_list};
    ghost use Rattle.fault_script.specs.declared.script.Part.{Part};
    ghost use Rattle.fault_script.specs.contracts.script.Part.{the_row};

    ghost Value = { List Part };

    ghost coded = { coded_list the_row.coded };

    ghost view = { λ p. p.parts.items };
}

impl Parts {
    pub(crate) fn new(alloc: Global) -> Self
        ensures { result ≡ [] }
    {
        Parts {
            parts: Vec::new(alloc),
        }
    }

    /// The parts in their order.
    pub fn as_slice(&self) -> &[Part]
        ensures { result.now ≡ self.now }
    {
        &self.parts
    }

    /// The parts, to be taken out one by one.
    pub fn into_rest(mut self) -> Rest
        ensures { result ≡ self }
    {
        self.parts.reverse();
        Rest { parts: self.parts }
    }

    pub(crate) fn push(&mut self, part: Part) -> Mem<()>
        ensures { OnOk result (self.new ≡ self.old ++ part ∷ []) }
    {
        self.parts.push(part)?;
        Ok(())
    }

    /// A copy of the parts.
    pub fn copy(&self) -> Mem<Parts>
        ensures { IfOk result (λ p. p ≡ self.now) }
    {
        let mut copies = Parts::new(*self.parts.allocator());
        for part in self.as_slice() {
            copies.push(part.copy()?)?;
        }
        Ok(copies)
    }

    /// The same parts, in no more memory than they need.
    pub(crate) fn shrunk(mut self) -> Self
        ensures { result ≡ self }
    {
        self.parts.shrink_to_fit();
        self
    }
}

/// What is left of the parts of a script. They are stored in reverse, so that memory is given back while they
/// are taken out.
#[derive(Drop)]
pub struct Rest {
    parts: Vec<Part>,
}

impl Model for Rest {
    ghost use Rattle.std.specs.Prelude.{List, reverse};
    ghost use Rattle.std.specs.Coded.{coded_list};
    ghost use Rattle.fault_script.specs.declared.script.Part.{Part};
    ghost use Rattle.fault_script.specs.contracts.script.Part.{the_row};

    ghost Value = { List Part };

    ghost coded = { coded_list the_row.coded };

    ghost view = { λ r. reverse r.parts.items };
}

impl Rest {
    /// Takes out the next part.
    pub fn next(&mut self) -> Option<Part>
        ensures { MatchOption result ((self.old ≡ []) × (self.new ≡ []))
            (λ part. self.old ≡ part ∷ self.new) }
    {
        let part = self.parts.pop()?;
        if self.parts.len() % MOST_SPARE == 0 {
            self.parts.shrink_to_fit();
        }
        Some(part)
    }
}

ghost use Rattle.std.specs.Prelude.{◌≡◌, IsTrue, ◌<◌, IfOk, OnOk};
ghost use Rattle.std.specs.Option.{option_map};
ghost use Rattle.std.specs.FinMap as maps;
ghost use Rattle.member_config.specs.Numbers.{lowest};
ghost use Rattle.repl_msg.specs.Sources as words;
ghost use Rattle.sync_source.specs.Known.{heard_by};

use crate::source::{Known, is_further, lower};
use member_config::Config;
use rs_optime::{Mem, OpTime};
use std::alloc::Global;
use std::collections::HashMap;
use std::marker::Model;

/// What was last heard of each member, by its number. Nothing is stored for the others.
#[derive(Drop)]
pub struct KnownTable {
    known: HashMap<u32, Known>,
}

impl Model for KnownTable {
    ghost use Rattle.std.specs.Coded.{codes};
    ghost use Rattle.std.specs.HashMap.{spare};
    ghost use Rattle.repl_msg.specs.Code.{known_code};
    ghost use Rattle.sync_source.specs.Table.{Table, heard_in};

    ghost Value = { Table };

    ghost coded = { Prim.hlevel (codes, known_code) };

    ghost view = { λ t. record { heard = heard_in t.known.entries; spare = spare t.known } };
}

impl KnownTable {
    /// Nothing was heard.
    pub fn new(alloc: Global) -> Self
        ensures { result.heard ≡ maps.empty }
    {
        KnownTable {
            known: HashMap::new(alloc),
        }
    }

    /// Makes room for what is heard of one member, so that `set` takes no memory for it.
    pub fn make_room(&mut self) -> Mem<()>
        ensures heard { self.new.heard ≡ self.old.heard }
        ensures room { OnOk result (0 < self.new.spare) }
    {
        self.known.reserve(1)
    }

    /// Sets what is now heard of a member, in the room that `make_room` made.
    pub fn set(&mut self, member: u32, last: OpTime, primary: bool)
        requires room { 0 < self.old.spare }
        ensures { self.new.heard
            ≡ maps.insert self.old.heard member (record { last = last; primary = primary }) }
    {
        let heard = Known {
            member,
            last,
            primary,
        };
        match self.known.insert(member, heard) {
            Ok(_) => {}
            Err(_) => unreachable!(),
        }
    }

    /// The member from which a node fetches: the lowest number among the other members whose last optime is
    /// later than its own, or none. Where chaining isn't allowed, only a primary counts.
    pub fn source(&self, config: &Config, own: u32, last: OpTime) -> Option<u32>
        ensures { result ≡ lowest (words.sources_of config.now own last (maps.get self.now.heard)) }
    {
        let members = config.members.as_slice();
        let sources = members
            .iter()
            .map(|m| m.number)
            .filter(|n| *n != own && self.goes_further(config, last, *n));
        sources.fold(None, |lowest, n| lower(lowest, n))
    }

    fn goes_further(&self, config: &Config, last: OpTime, member: u32) -> bool
        ensures { result ≡ words.goes_further config.now last (maps.get self.now.heard member) }
    {
        is_further(config, last, self.known.get(&member).copied())
    }

    /// What was last heard of a member: its last visible optime, and whether it is primary. None where
    /// nothing was heard of it.
    pub fn of(&self, member: u32) -> Option<(OpTime, bool)>
        ensures { result ≡ option_map (λ h. (h.last, h.primary)) (maps.get self.now.heard member) }
    {
        match self.heard(member) {
            None => None,
            Some(known) => Some((known.last, known.primary)),
        }
    }

    fn heard(&self, member: u32) -> Option<Known>
        ensures { option_map heard_by result ≡ maps.get self.now.heard member }
    {
        self.known.get(&member).copied()
    }

    /// Whether the same was heard as in another.
    pub fn same(&self, other: &KnownTable) -> bool
        ensures { IsTrue result → self.now.heard ≡ other.now.heard }
    {
        self.known == other.known
    }

    /// The same once more. What room there is for more isn't said.
    pub fn copy(&self) -> Mem<Self>
        ensures { IfOk result (λ table. table.heard ≡ self.now.heard) }
    {
        Ok(KnownTable {
            known: self.known.clone()?,
        })
    }
}

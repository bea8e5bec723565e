// What is kept by pairs of numbers.
ghost use Rattle.std.specs.Prelude.{◌≡◌, ◌∷◌, ◌++◌, [], IfSome, OnOk};
ghost use Rattle.rs_optime.specs.Membership.{In};

use crate::hashing::pair_hash;
use crate::index::Index;
use bson_doc::Mem;
use std::alloc::Global;
use std::marker::Model;

/// Numbers that were computed for pairs, and are kept. Contracts see them in the order in which they were
/// put.
#[derive(Drop)]
pub struct Kept {
    entries: Vec<KeptNumber>,
    index: Index,
}

/// A number that is kept, for a pair.
#[derive(Clone, Copy, Debug, PartialEq, Eq)]
pub struct KeptNumber {
    /// The first of the pair.
    pub one: u32,
    /// The second of the pair.
    pub two: u32,
    pub number: u32,
}

impl Model for Kept {
    ghost use Rattle.std.specs.Prelude.{◌≤◌, List, length};
    ghost use Rattle.std.specs.Coded.{coded_list};
    ghost use Rattle.explore_tables.specs.declared.kept.KeptNumber.{KeptNumber};
    ghost use Rattle.explore_tables.specs.contracts.kept.KeptNumber.{the_row};

    ghost Value = { List KeptNumber };

    ghost coded = { coded_list the_row.coded };

    ghost view = { λ k. k.entries.items };

    ghost invariant = { λ k. k.index ≤ length k.entries.items };
}

impl Kept {
    /// Nothing is kept.
    pub fn new(alloc: Global) -> Self
        ensures { result ≡ [] }
    {
        Kept {
            entries: Vec::new(alloc),
            index: Index::new(alloc),
        }
    }

    /// What is kept for a pair, where it is found.
    pub fn find(&self, one: u32, two: u32) -> Option<u32>
        ensures { IfSome result (λ found. In (record { one = one; two = two; number = found }) self.now) }
    {
        let hash = pair_hash(one, two);
        let mut link = self.index.newest(hash);
        while link > 0 {
            let kept = self.entries[link as usize - 1];
            if kept.one == one && kept.two == two {
                return Some(kept.number);
            }
            link = self.index.older(link, hash);
        }
        None
    }

    /// Keeps this number for a pair. The only error is out of memory.
    pub fn put(&mut self, one: u32, two: u32, number: u32) -> Mem<()>
        ensures { OnOk result (self.new ≡ self.old ++ record { one = one; two = two; number = number } ∷ []) }
    {
        self.entries.push(KeptNumber { one, two, number })?;
        self.index.add(pair_hash(one, two))?;
        Ok(())
    }
}

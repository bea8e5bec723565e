// Pairs of numbers, each once.
ghost use Rattle.std.specs.Prelude.{◌≡◌, ◌<◌, [], length, IfOk, IfSome, Some, slice_get};
ghost use Rattle.explore_tables.specs.Growing.{AddsAtMost};

use crate::hashing::pair_hash;
use crate::index::Index;
use crate::numbers::number_of;
use bson_doc::Mem;
use std::alloc::Global;
use std::marker::Model;

/// Pairs by numbers.
#[derive(Drop)]
pub struct PairTable {
    pairs: Vec<(u32, u32)>,
    index: Index,
}

impl Model for PairTable {
    ghost use Rattle.std.specs.Prelude.{◌≤◌, ℕ, List, length};
    ghost use Rattle.std.specs.Coded.{codes};

    ghost Value = { List (ℕ × ℕ) };

    ghost coded = { Prim.hlevel codes };

    ghost view = { λ t. t.pairs.items };

    ghost invariant = { λ t. t.index ≤ length t.pairs.items };
}

impl PairTable {
    /// No pair.
    pub fn new(alloc: Global) -> Self
        ensures { result ≡ [] }
    {
        PairTable {
            pairs: Vec::new(alloc),
            index: Index::new(alloc),
        }
    }

    /// The pair of this number.
    pub fn get(&self, number: u32) -> (u32, u32)
        requires { number < length self.now }
        ensures { slice_get self.now number ≡ Some result }
    {
        self.pairs[number as usize]
    }

    /// The number of this pair, which is added where none is found. The only error is out of memory.
    pub fn place(&mut self, one: u32, two: u32) -> Mem<u32>
        ensures grown { AddsAtMost (one, two) self.old self.new }
        ensures there { IfOk result (λ number. slice_get self.new number ≡ Some (one, two)) }
    {
        let hash = pair_hash(one, two);
        if let Some(number) = self.find(one, two, hash) {
            return Ok(number);
        }
        let number = number_of(self.pairs.len())?;
        self.pairs.push((one, two))?;
        self.index.add(hash)?;
        Ok(number)
    }

    fn find(&self, one: u32, two: u32, hash: u32) -> Option<u32>
        ensures { IfSome result (λ number. slice_get self.now number ≡ Some (one, two)) }
    {
        let mut link = self.index.newest(hash);
        while link > 0 {
            let pair = self.pairs[link as usize - 1];
            if pair.0 == one && pair.1 == two {
                return Some(link - 1);
            }
            link = self.index.older(link, hash);
        }
        None
    }
}

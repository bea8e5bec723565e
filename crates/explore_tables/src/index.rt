// How the items of a list are found by their hashes.
ghost use Rattle.std.specs.Prelude.{◌≡◌, ◌<◌, ◌≤◌, ◌+◌, length, if◌then◌else◌};
ghost use Rattle.std.specs.Result.{is_ok};
ghost use Rattle.explore_tables.specs.Chains.{AreChained};

use crate::numbers::number_of;
use bson_doc::Mem;
use std::alloc::Global;
use std::marker::Model;

/// The least number of chains.
const LEAST: usize = 16;

/// The items of a list in chains, one for each group of hashes, from its newest item to its oldest. A link
/// is one more than the place of an item, and 0 after the oldest. Contracts see how many items there are.
#[derive(Drop)]
pub struct Index {
    heads: Vec<u32>,
    items: Vec<Item>,
}

/// The hash of an item, and the link to an older one.
#[derive(Clone, Copy, Debug, PartialEq, Eq)]
struct Item {
    hash: u32,
    older: u32,
}

impl Model for Index {
    ghost use Rattle.std.specs.Prelude.{ℕ, length};
    ghost use Rattle.std.specs.Coded.{coded_ℕ};
    ghost use Rattle.explore_tables.specs.Chains.{AreChained};

    ghost Value = { ℕ };

    ghost coded = { coded_ℕ };

    ghost view = { λ i. length i.items.items };

    ghost invariant = { λ i. AreChained (length i.items.items) i.heads.items i.items.items };
}

impl Index {
    /// No item.
    pub fn new(alloc: Global) -> Self
        ensures { result ≡ 0 }
    {
        Index {
            heads: Vec::new(alloc),
            items: Vec::new(alloc),
        }
    }

    /// The link to the newest item of this hash.
    pub fn newest(&self, hash: u32) -> u32
        ensures { result ≤ self.now }
    {
        match self.heads.get(chain(hash, self.heads.len())) {
            Some(head) => self.of_hash(*head, hash),
            None => 0,
        }
    }

    /// The link to the newest item of this hash that is older than that of a link.
    pub fn older(&self, link: u32, hash: u32) -> u32
        requires there { 0 < link }
        requires within { link ≤ self.now }
        ensures { result < link }
    {
        self.of_hash(self.items[link as usize - 1].older, hash)
    }

    /// The first link to an item of this hash in a chain, from this one on.
    fn of_hash(&self, first: u32, hash: u32) -> u32
        requires { first ≤ self.now }
        ensures { result ≤ first }
    {
        let mut link = first;
        while link > 0 {
            let item = self.items[link as usize - 1];
            if item.hash == hash {
                return link;
            }
            link = item.older;
        }
        0
    }

    /// Adds the next item, by its hash. It is out of memory too where there are too many to be numbered.
    pub fn add(&mut self, hash: u32) -> Mem<()>
        ensures { self.new ≡ (if is_ok result then self.old + 1 else self.old) }
    {
        let place = number_of(self.items.len())?;
        if self.items.len() >= self.heads.len() {
            self.spread()?;
        }
        self.items.push(Item { hash, older: 0 })?;
        link(&mut self.heads, &mut self.items, place);
        Ok(())
    }

    /// Twice as many chains as there are items. There are as many chains as items before, so the number of
    /// chains is a power of two.
    fn spread(&mut self) -> Mem<()>
        ensures { self.new ≡ self.old }
    {
        let count = (self.items.len() * 2).max(LEAST);
        self.heads = vec![in *self.heads.allocator(); 0; count]?;
        for place in 0..self.items.len() {
            link(&mut self.heads, &mut self.items, place as u32);
        }
        Ok(())
    }
}

/// Puts the item at a place in front of its chain.
fn link(heads: &mut [u32], items: &mut [Item], place: u32)
    requires within { place < length items.old }
    requires chained { AreChained place heads.old items.old }
    ensures chained { AreChained (place + 1) heads.new items.new }
    ensures count { length items.new ≡ length items.old }
{
    let item = &mut items[place as usize];
    let chain = chain(item.hash, heads.len());
    if chain < heads.len() {
        item.older = heads[chain];
        heads[chain] = place + 1;
    }
}

/// The chain of a hash among so many, which are a power of two or none.
fn chain(hash: u32, count: usize) -> usize {
    match count {
        0 => 0,
        count => hash as usize & (count - 1),
    }
}

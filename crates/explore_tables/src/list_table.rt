// Lists of numbers, each once.
ghost use Rattle.std.specs.Prelude.{◌≡◌, ◌<◌, [], length, IfOk, IfSome, Some, slice_get};
ghost use Rattle.explore_tables.specs.Growing.{AddsAtMost};

use crate::hashing::list_hash;
use crate::index::Index;
use crate::numbers::number_of;
use bson_doc::Mem;
use std::alloc::Global;
use std::marker::Model;

/// Lists by numbers.
#[derive(Drop)]
pub struct ListTable {
    lists: Vec<Vec<u32>>,
    index: Index,
}

impl Model for ListTable {
    ghost use Rattle.std.specs.Prelude.{◌≤◌, ℕ, List, length, map};
    ghost use Rattle.std.specs.Coded.{coded_ℕ, coded_list};

    ghost Value = { List (List ℕ) };

    ghost coded = { coded_list (coded_list coded_ℕ) };

    ghost view = { λ t. map (λ list. list.items) t.lists.items };

    ghost invariant = { λ t. t.index ≤ length t.lists.items };
}

impl ListTable {
    /// No list.
    pub fn new(alloc: Global) -> Self
        ensures { result ≡ [] }
    {
        ListTable {
            lists: Vec::new(alloc),
            index: Index::new(alloc),
        }
    }

    /// The list of this number.
    pub fn get(&self, number: u32) -> &[u32]
        requires { number < length self.now }
        ensures { slice_get self.now number ≡ Some result.now }
    {
        &self.lists[number as usize]
    }

    /// The number of this list, which is added where none is found. The only error is out of memory.
    pub fn place(&mut self, list: Vec<u32>) -> Mem<u32>
        ensures grown { AddsAtMost list.items self.old self.new }
        ensures there { IfOk result (λ number. slice_get self.new number ≡ Some list.items) }
    {
        let hash = list_hash(&list);
        if let Some(number) = self.find(&list, hash) {
            return Ok(number);
        }
        let number = number_of(self.lists.len())?;
        self.lists.push(list)?;
        self.index.add(hash)?;
        Ok(number)
    }

    fn find(&self, list: &[u32], hash: u32) -> Option<u32>
        ensures { IfSome result (λ number. slice_get self.now number ≡ Some list.now) }
    {
        let mut link = self.index.newest(hash);
        while link > 0 {
            if self.lists[link as usize - 1].as_slice() == list {
                return Some(link - 1);
            }
            link = self.index.older(link, hash);
        }
        None
    }
}

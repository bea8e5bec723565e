// The values of an array.
ghost use Rattle.std.specs.Prelude.{◌≡◌, ◌≤◌, ◌+◌, OnOk, OnErr, IfOk, MatchOption};
ghost use Rattle.bson_doc.specs.Tree.{no_items, item, items_count, trees_from, with_item};
ghost use Rattle.bson_doc.specs.Sound.{AreSoundItems};
ghost use Rattle.bson_doc.specs.View.{tree_of};

use super::{Items, Value, make_room};
use crate::Mem;
use std::alloc::Global;

impl Items {
    /// An array without values.
    pub fn new(alloc: Global) -> Self
        ensures { result ≡ no_items }
    {
        Items {
            items: Vec::new(alloc),
        }
    }

    /// How many values the array itself has, not counting those of inner arrays.
    #[tactic(auto, using(crate::proofs::DocLemmas::doc_lemmas))]
    pub fn len(&self) -> usize
        ensures { result ≡ items_count self.now }
    {
        self.items.len()
    }

    /// Each item is sound at every level: a fact for callers' proofs, which costs nothing.
    pub fn recall_sound(&self)
        ensures { AreSoundItems self.now }
    {
        let _ = &self.items;
    }

    /// The value at a place.
    #[tactic(auto, using(crate::proofs::DocLemmas::doc_lemmas))]
    pub fn at(&self, place: usize) -> Option<&Value>
        ensures { MatchOption result (items_count self.now ≤ place)
            (λ v. trees_from place self.now ≡ item (tree_of v.now) (trees_from (place + 1) self.now)) }
    {
        self.items.get(place)
    }

    /// Appends a value. The only error is out of memory, which leaves the array as it was.
    #[tactic(auto, using(crate::proofs::DocLemmas::doc_lemmas, crate::proofs::SoundLemmas::keeps_sound))]
    pub fn push(&mut self, value: Value) -> Mem<()>
        ensures ok { OnOk result (self.new ≡ with_item self.old (tree_of value)) }
        ensures err { OnErr result (self.new ≡ self.old) }
    {
        value.recall_sound();
        let more = self.items.len().max(1);
        make_room(&mut self.items, more)?;
        self.items.push_reserved(value);
        Ok(())
    }

    /// A copy of the array. The only error is out of memory.
    #[cycle(copy)]
    pub fn copy(&self) -> Mem<Items>
        ensures { IfOk result (λ i. i ≡ self.now) }
    {
        let mut items = Vec::with_capacity(*self.items.allocator(), self.items.len())?;
        for item in &self.items {
            items.push(item.copy()?)?;
        }
        Ok(Items { items })
    }
}

// The fields of a document and the values of an array, one after another.
ghost use Rattle.std.specs.Prelude.{◌≡◌, ◌≤◌, ◌+◌, ◌-◌, MatchOption};
ghost use Rattle.std.specs.Iterator.{at_most};
ghost use Rattle.bson_doc.specs.Tree.{field, item, count, items_count, fields_from, trees_from};
ghost use Rattle.bson_doc.specs.View.{tree_of};

use crate::{Doc, Items, Value};

/// The fields of a document in their order, each as its name and its value.
#[derive(Clone, Copy)]
pub struct DocIter<'a> {
    document: &'a Doc,
    place: usize,
}

impl<'a> Iterator for DocIter<'a> {
    type Item = (&'a str, &'a Value);

    ghost remaining = { λ s. at_most (count s.document.now - s.place) };

    ghost next_gives = { λ a r b. (b.document ≡ a.document) × MatchOption r (count a.document.now ≤ a.place)
        (λ x. (b.place ≡ a.place + 1)
        × (fields_from a.place a.document.now
        ≡ field x.0.now (tree_of x.1.now) (fields_from (a.place + 1) a.document.now))) };

    fn next(&mut self) -> Option<(&'a str, &'a Value)> {
        if self.place >= self.document.len() {
            return None;
        }
        let field = self.document.at(self.place)?;
        self.place += 1;
        Some(field)
    }
}

/// The values of an array in their order.
#[derive(Clone, Copy)]
pub struct ItemsIter<'a> {
    items: &'a Items,
    place: usize,
}

impl<'a> Iterator for ItemsIter<'a> {
    type Item = &'a Value;

    ghost remaining = { λ s. at_most (items_count s.items.now - s.place) };

    ghost next_gives = { λ a r b. (b.items ≡ a.items) × MatchOption r (items_count a.items.now ≤ a.place)
        (λ x. (b.place ≡ a.place + 1)
        × (trees_from a.place a.items.now ≡ item (tree_of x.now) (trees_from (a.place + 1) a.items.now))) };

    fn next(&mut self) -> Option<&'a Value> {
        if self.place >= self.items.len() {
            return None;
        }
        let value = self.items.at(self.place)?;
        self.place += 1;
        Some(value)
    }
}

impl Doc {
    /// Its fields in their order.
    pub fn iter(&self) -> DocIter<'_>
        ensures document { result.document.now ≡ self.now }
        ensures first { result.place ≡ 0 }
    {
        DocIter {
            document: self,
            place: 0,
        }
    }
}

impl Items {
    /// Its values in their order.
    pub fn iter(&self) -> ItemsIter<'_>
        ensures items { result.items.now ≡ self.now }
        ensures first { result.place ≡ 0 }
    {
        ItemsIter {
            items: self,
            place: 0,
        }
    }
}

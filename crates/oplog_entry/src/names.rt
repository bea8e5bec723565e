// Strings among which names are looked up many times.
ghost use Rattle.std.specs.Prelude.{◌≡◌, IfOk};
ghost use Rattle.oplog_entry.specs.Lawful.{is_among};
ghost use Rattle.oplog_entry.specs.Step.{strings_of};

use bson_doc::{Items, Mem, Text, Value};
use std::alloc::Global;
use std::collections::BTreeSet;
use std::marker::Model;

/// The strings among some values, seen as a list. A look-up takes O(log n) comparisons.
#[derive(Drop)]
pub struct NameSet<'a> {
    values: &'a Items,
    names: BTreeSet<Text>,
}

impl<'a> Model for NameSet<'a> {
    ghost use Rattle.std.specs.Prelude.{◌≡◌, List, ℕ};
    ghost use Rattle.std.specs.Ordering.{nat_cmp};
    ghost use Rattle.std.specs.BTreeSet.{contains};
    ghost use Rattle.std.specs.Cmp.Lexicographic.{slice_cmp};
    ghost use Rattle.oplog_entry.specs.Lawful.{is_among};
    ghost use Rattle.oplog_entry.specs.Step.{strings_of};

    ghost Value = { List (List ℕ) };

    ghost view = { λ s. strings_of s.values.now };

    ghost invariant = { λ s. (name : List ℕ)
        → contains (slice_cmp nat_cmp) s.names name ≡ is_among name (strings_of s.values.now) };
}

impl<'a> NameSet<'a> {
    /// The set of the strings among some values; other values are skipped. The only error is out of memory.
    pub fn new(alloc: Global, values: &'a Items) -> Mem<Self>
        ensures { IfOk result (λ names. names ≡ strings_of values.now) }
    {
        let mut names = BTreeSet::new(alloc);
        for place in (0..values.len()).rev() {
            if let Some(Value::Text(name)) = values.at(place) {
                names.insert(name.copy()?)?;
            }
        }
        Ok(NameSet { values, names })
    }

    /// Whether a name is among the strings.
    pub fn contains(&self, name: &Text) -> bool
        ensures { result ≡ is_among name.now self.now }
    {
        self.names.contains(name)
    }
}

// The names of a document with many fields, as a set.
ghost use Rattle.std.specs.Prelude.{◌≡◌, ◌≤◌, ℕ, List, length, OnOk, true, false, cond};
ghost use Rattle.std.specs.Str.{bytes_eq};
ghost use Rattle.bson_doc.specs.Names.{short_form, has_name};

use crate::Mem;
use std::alloc::Global;
use std::collections::BTreeSet;

/// The most bytes that a short name has.
const SHORT: usize = 15;

/// Names in two sets. A short name is an array, so that two are compared byte by byte in place. Most
/// names are short.
#[derive(Drop)]
pub(crate) struct FieldNames {
    short: BTreeSet<[u8; 16]>,
    long: BTreeSet<String>,
}

/// The length of a short name, the name, and zeros after it.
fn form_of(name: &str) -> [u8; 16]
    requires { length name.now ≤ 15 }
    ensures { result ≡ short_form name.now }
{
    let mut form = [0; 16];
    form[0] = name.len() as u8;
    form[1..=name.len()].copy_from_slice(name.as_bytes());
    form
}

impl FieldNames {
    /// No names.
    pub(crate) fn new(alloc: Global) -> Self
        ensures { (name : List ℕ) → has_name result name ≡ false }
    {
        FieldNames {
            short: BTreeSet::new(alloc),
            long: BTreeSet::new(alloc),
        }
    }

    /// Whether the name is one of them.
    pub(crate) fn has(&self, name: &str) -> bool
        ensures { result ≡ has_name self.now name.now }
    {
        if name.len() <= SHORT {
            self.short.contains(&form_of(name))
        } else {
            self.long.contains(name)
        }
    }

    /// One more name.
    pub(crate) fn insert(&mut self, alloc: Global, name: &str) -> Mem<()>
        ensures { OnOk result ((other : List ℕ) → has_name self.new other
            ≡ cond (bytes_eq name.now other) true (has_name self.old other)) }
    {
        if name.len() <= SHORT {
            self.short.insert(form_of(name))?;
        } else {
            self.long.insert(String::from_str(alloc, name)?)?;
        }
        Ok(())
    }
}

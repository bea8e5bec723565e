// Rows of numbers, each once.
ghost use Rattle.std.specs.Prelude.{◌≡◌, ◌<◌, ◌≤◌, ◌+◌, ◌-◌, ◌*◌, ◌^◌, ◌∷◌, ◌++◌, [], ℕ, length, take, drop, IsTrue, OnOk, Some, slice_get};

use crate::hashing::list_hash;
use crate::index::Index;
use bson_doc::Mem;
use std::alloc::Global;
use std::marker::Model;

/// Rows by numbers, in the order in which they were added, all of the same width. They stand in one list, so
/// a row takes no memory but for its numbers and its place in the index.
#[derive(Drop)]
pub struct RowTable {
    width: usize,
    count: usize,
    numbers: Vec<u32>,
    index: Index,
}

impl Model for RowTable {
    ghost use Rattle.explore_tables.specs.Rows.{AreWhole, Rows, rows_code, rows_of};

    ghost Value = { Rows };

    ghost coded = { rows_code };

    ghost view = { λ t. record { width = t.width; rows = rows_of t.width t.count t.numbers.items } };

    ghost invariant = { λ t. AreWhole t.width t.count t.index t.numbers.items };
}

impl RowTable {
    /// No row. Each will have so many numbers.
    pub fn new(alloc: Global, width: usize) -> Self
        ensures { result ≡ record { width = width; rows = [] } }
    {
        RowTable {
            width,
            count: 0,
            numbers: Vec::new(alloc),
            index: Index::new(alloc),
        }
    }

    /// How many rows there are.
    pub fn len(&self) -> u32
        ensures { result ≡ length self.now.rows }
    {
        self.count as u32
    }

    /// The row of this number.
    pub fn row(&self, number: u32) -> &[u32]
        requires { number < length self.now.rows }
        ensures { slice_get self.now.rows number ≡ Some result.now }
    {
        part(&self.numbers, number, self.width)
    }

    /// Whether these numbers are a row, as far as it is found.
    pub fn has(&self, row: &[u32]) -> bool
        ensures { IsTrue result → (number : ℕ) × (slice_get self.now.rows number ≡ Some row.now) }
    {
        let hash = list_hash(row);
        let mut link = self.index.newest(hash);
        while link > 0 {
            if self.row(link - 1) == row {
                return true;
            }
            link = self.index.older(link, hash);
        }
        false
    }

    /// Adds a row. The only error is out of memory.
    pub fn add(&mut self, row: &[u32]) -> Mem<()>
        requires width { length row.now ≡ self.old.width }
        requires few { length self.old.rows < 2 ^ 32 - 1 }
        ensures { OnOk result (self.new ≡ record {
          width = self.old.width;
          rows = self.old.rows ++ row.now ∷ [];
        }) }
    {
        self.numbers.extend_from_slice(row)?;
        self.count += 1;
        self.index.add(list_hash(row))?;
        Ok(())
    }
}

/// The row of this number, in a list of rows of this width.
fn part(numbers: &[u32], number: u32, width: usize) -> &[u32]
    requires { number * width + width ≤ length numbers.now }
    ensures { result.now ≡ take width (drop (number * width) numbers.now) }
{
    let start = number as usize * width;
    &numbers[start..start + width]
}

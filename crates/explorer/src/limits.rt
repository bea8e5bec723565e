// How often limited acts were done.
ghost use Rattle.std.specs.Prelude.{◌≡◌, ◌↔◌, ◌<◌, ℕ, length, IfOk, IfSome, IsTrue, List, Some, slice_get};
ghost use Rattle.explore_tables.specs.Numbers.{times as times_in};
ghost use Rattle.explore_steps.specs.Tables.{AreNumbered};
ghost use Rattle.explorer.specs.States.{IsMore};

use bson_doc::Mem;
use explore_tables::{ListTable, times, with};
use explore_words::Act;
use std::alloc::Global;

/// Whether the limit of an act isn't reached, after the acts of this number.
pub(crate) fn may_do(lists: &ListTable, act: &Act, place: u32, used: u32) -> bool
    requires { used < length lists.now }
    ensures { (acts : List ℕ) → slice_get lists.now used ≡ Some acts
        → IsTrue result ↔ IfSome act.now.limit (λ limit. times_in place acts < limit) }
{
    match act.limit {
        Some(limit) => times(lists.get(used), place) < limit as usize,
        None => true,
    }
}

/// The number of the limited acts that were done, with this one more.
pub(crate) fn used_more(
    alloc: Global,
    lists: &mut ListTable,
    act: &Act,
    place: u32,
    used: u32,
) -> Mem<u32>
    requires { used < length lists.old }
    ensures grown { AreNumbered lists.old lists.new }
    ensures more { IfOk result (λ number. (acts : List ℕ) → slice_get lists.old used ≡ Some acts
        → IsMore lists.new act.now place number acts) }
{
    if act.limit.is_none() {
        return Ok(used);
    }
    let more = with(alloc, lists.get(used), place)?;
    lists.place(more)
}

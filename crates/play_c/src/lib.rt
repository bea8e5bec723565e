//! The static library that replset.h declares: sets that are played line by line, for C and what calls C.
//!
//! The other functions of the header are calls of `replset_call`, each by its number.
#![tactic(auto)]

ghost use Rattle.std.specs.Prelude.{◌≡◌, ◌++◌, None, drop, length, take};
ghost use Rattle.play_c.specs.declared.calls.Answer.{Answer as Answered};
ghost use Rattle.play_c.specs.Calls.{call_of, number_of};
ghost use Rattle.play_c.specs.Handles.{Calls, Copies, Opens, shown};

mod buffer;
mod calls;
mod handle;
mod held;
mod parts;

use crate::buffer::put;
use crate::calls::{Answer, Call};
pub use crate::handle::Handle;
use crate::handle::{called, copied, opened, taken};
use std::alloc::Global;

/// Opens a set of so many nodes, voters and members, whose `set` line has this number. What the handle led to
/// before is given back.
#[unsafe(no_mangle)]
pub extern "C" fn replset_open(
    alloc: Global,
    nodes: u32,
    voters: u32,
    members: u32,
    line: u32,
    set: &mut Handle,
) -> u32
    ensures { (answer : Answered) × (result ≡ number_of answer)
        × Opens answer (nodes, voters, members) line set.old.held set.new.held }
{
    opened(alloc, (nodes, voters, members), line, set).number()
}

/// Copies a set. What the handle of the copy led to before is given back.
#[unsafe(no_mangle)]
pub extern "C" fn replset_copy(alloc: Global, set: &mut Handle, copy: &mut Handle) -> u32
    ensures copies { (answer : Answered) × (result ≡ number_of answer)
        × Copies answer set.old.held copy.old.held copy.new.held }
    ensures set { set.new.held ≡ set.old.held }
{
    copied(alloc, set, copy).number()
}

/// Gives a set back, if there is one.
#[unsafe(no_mangle)]
pub extern "C" fn replset_free(alloc: Global, set: &mut Handle)
    ensures { set.new.held ≡ None }
{
    let _ = taken(alloc, set);
}

/// Every other call, by its number. As much of its text as there is room for is put into `out`, and how long
/// the text is into `size`.
#[unsafe(no_mangle)]
pub extern "C" fn replset_call(
    alloc: Global,
    set: &mut Handle,
    call: u32,
    number: u64,
    line: &[u8],
    out: &mut [u8],
    size: &mut usize,
) -> u32
    ensures calls { (answer : Answered) × (result ≡ number_of answer)
        × Calls answer (call_of call) number line.now set.old.held set.new.held }
    ensures size { size.new ≡ length (shown (call_of call) number set.new.held) }
    ensures out { out.new ≡ take (length out.old) (shown (call_of call) number set.new.held)
        ++ drop (length (shown (call_of call) number set.new.held)) out.old }
{
    called(alloc, set, Call::of(call), number, line, out, size).number()
}

// Handles, as C has them.
ghost use Rattle.std.specs.Prelude.{◌≡◌, ◌++◌, None, Some, MatchOption, drop, length, take};
ghost use Rattle.std.specs.declared.option.Option.{Option as Maybe};
ghost use Rattle.play_c.specs.Handles.{Calls, Copies, Opens, PutsIn, first_shown, shown};
ghost use Rattle.play_c.specs.Holding.{Holding};
ghost use Rattle.play_c.specs.Owned.{held_coded, held_owns};

use crate::buffer::put;
use crate::calls::{Answer, Call};
use crate::held::Held;
use crate::parts::Parts;
use play::{OpenError, Play};
use run_checker::Sizes;
use std::alloc::Global;
use std::marker::Model;
use std::mem::replace;
use std::ptr::null_mut;

/// A pointer to a set, with the text of its last call, or null. C keeps it, and writes nothing else into it.
#[repr(C)]
pub struct Handle {
    at: *mut u8,
    pub(crate) ghost held: { Maybe Holding } by { held_coded },
}

impl Model for Handle {
    ghost also_owns = { λ h. held_owns h.at h.held };
}

impl Handle {
    /// A handle that leads nowhere.
    pub(crate) fn none() -> Handle
        ensures { result.held ≡ None }
    {
        Handle { at: null_mut() }
    }

    fn of(held: Box<Held>) -> Handle
        ensures { result.held ≡ Some held.value }
    {
        Handle::of_parts(Parts::of(held))
    }

    pub(crate) fn into_box(self, alloc: Global) -> Option<Box<Held>>
        ensures { MatchOption result (self.held ≡ None) (λ held. self.held ≡ Some held.value) }
    {
        match self.into_parts(alloc) {
            Some(parts) => Some(parts.into_box()),
            None => None,
        }
    }

    fn of_parts(parts: Parts<Held, Global>) -> Handle
        ensures { result.held ≡ Some parts.value }
    {
        let Parts { ptr, alloc: _ } = parts;
        Handle { at: ptr as *mut u8 }
    }

    fn into_parts(self, alloc: Global) -> Option<Parts<Held, Global>>
        ensures { MatchOption result (self.held ≡ None) (λ parts. self.held ≡ Some parts.value) }
    {
        let Handle { at } = self;
        if at.is_null() {
            return None;
        }
        Some(Parts {
            ptr: at as *mut Held,
            alloc,
        })
    }
}

/// Takes a set out of its handle.
pub(crate) fn taken(alloc: Global, set: &mut Handle) -> Option<Box<Held>>
    ensures held { MatchOption result (set.old.held ≡ None) (λ held. set.old.held ≡ Some held.value) }
    ensures none { set.new.held ≡ None }
{
    replace(set, Handle::none()).into_box(alloc)
}

/// Lets a handle lead to a set, and gives back what it led to.
fn give(alloc: Global, set: &mut Handle, held: Box<Held>)
    ensures { set.new.held ≡ Some held.value }
{
    drop(replace(set, Handle::of(held)).into_box(alloc));
}

/// The same for a set that has no place of its own yet.
fn put_in(alloc: Global, set: &mut Handle, held: Held) -> Answer
    ensures { PutsIn result held set.old.held set.new.held }
{
    match Box::new(alloc, held) {
        Ok(held) => {
            give(alloc, set, held);
            Answer::Done
        }
        Err(_) => Answer::Memory,
    }
}

/// Opens a set.
pub(crate) fn opened(alloc: Global, sizes: Sizes, line: u32, set: &mut Handle) -> Answer
    ensures { Opens result sizes line set.old.held set.new.held }
{
    match Play::open(alloc, sizes, line) {
        Ok(play) => put_in(alloc, set, Held::new(alloc, play)),
        Err(OpenError::BadSizes) => Answer::BadSizes,
        Err(OpenError::Memory) => Answer::Memory,
    }
}

/// Copies a set.
pub(crate) fn copied(alloc: Global, set: &mut Handle, copy: &mut Handle) -> Answer
    ensures copies { Copies result set.old.held copy.old.held copy.new.held }
    ensures set { set.new.held ≡ set.old.held }
{
    let Some(held) = taken(alloc, set) else {
        return Answer::NoSet;
    };
    let made = held.copy(alloc);
    give(alloc, set, held);
    match made {
        Ok(made) => put_in(alloc, copy, made),
        Err(_) => Answer::Memory,
    }
}

/// Does a call, and puts its text into the caller's buffer.
pub(crate) fn called(
    alloc: Global,
    set: &mut Handle,
    call: Option<Call>,
    number: u64,
    line: &[u8],
    out: &mut [u8],
    size: &mut usize,
) -> Answer
    ensures calls { Calls result call number line.now set.old.held set.new.held }
    ensures size { size.new ≡ length (shown call number set.new.held) }
    ensures out { out.new ≡ take (length out.old) (shown call number set.new.held)
        ++ drop (length (shown call number set.new.held)) out.old }
{
    let Some(mut held) = taken(alloc, set) else {
        put(&[], 0, out, size);
        return Answer::NoSet;
    };
    let answer = held.call(call, number, line);
    put(held.text(), first_shown(call, number), out, size);
    give(alloc, set, held);
    answer
}

/// From which byte on a call shows its text.
fn first_shown(call: Option<Call>, number: u64) -> u64
    ensures { result ≡ first_shown call number }
{
    match call {
        Some(Call::Text) => number,
        _ => 0,
    }
}

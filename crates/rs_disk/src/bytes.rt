// Plain work on bytes and marks.
ghost use Rattle.std.specs.Prelude.{◌≡◌, ℕ, ◌++◌, ◌+◌, ◌-◌, ◌%◌, ◌≤◌, ◌&&◌, ◌||◌, nat_le, nat_lt, false, if◌then◌else◌, slice_index, slice_index_or, OnOk, length, vec_len, vec_capacity, replicate};
ghost use Rattle.rs_disk.specs.File.{overwritten};

use std::alloc::AllocError;

// Overwrites the list with bytes from a place on, and appends those that go past its end. There is
// room for them.
pub(crate) fn overwrite(list: &mut Vec<u8>, at: usize, bytes: &[u8])
    requires place { at ≤ vec_len list.old }
    requires room { at + length bytes.now ≤ vec_capacity list.old }
    ensures items { list.new.items ≡ overwritten at bytes.now list.old.items }
    ensures capacity { vec_capacity list.old ≤ vec_capacity list.new }
{
    let inside = bytes.len().min(list.len() - at);
    let (over, after) = bytes.split_at(inside);
    list[at..at + inside].copy_from_slice(over);
    append(list, after);
}

// Puts bytes after the others. There is room for them.
pub(crate) fn append(list: &mut Vec<u8>, bytes: &[u8])
    requires { vec_len list.old + length bytes.now ≤ vec_capacity list.old }
    ensures items { list.new.items ≡ list.old.items ++ bytes.now }
    ensures capacity { vec_capacity list.old ≤ vec_capacity list.new }
{
    let Ok(()) = list.extend_from_slice(bytes) else {
        unreachable!();
    };
}

// Puts marks that aren't set after the others. There is room for them.
pub(crate) fn append_unset(marks: &mut Vec<bool>, count: usize)
    requires { vec_len marks.old + count ≤ vec_capacity marks.old }
    ensures items { marks.new.items ≡ marks.old.items ++ replicate count false }
    ensures capacity { vec_capacity marks.old ≤ vec_capacity marks.new }
{
    let len = marks.len() + count;
    let Ok(()) = marks.resize(len, false) else {
        unreachable!();
    };
}

// Makes room for this many, without making the list longer.
pub(crate) fn extend_room(list: &mut Vec<u8>, room: usize) -> Result<(), AllocError>
    ensures ok { OnOk result (room ≤ vec_capacity list.new) }
    ensures items { list.new.items ≡ list.old.items }
    ensures capacity { vec_capacity list.old ≤ vec_capacity list.new }
{
    if room <= list.capacity() {
        return Ok(());
    }
    list.reserve(room - list.len())
}

// Makes room for this many, without making the list longer. Only what is in the list moves, not its room: so
// room that was never used takes no memory.
pub(crate) fn widen<T: Copy + Drop>(list: &mut Vec<T>, room: usize) -> Result<(), AllocError>
    ensures ok { OnOk result (room ≤ vec_capacity list.new) }
    ensures items { list.new.items ≡ list.old.items }
    ensures capacity { vec_capacity list.old ≤ vec_capacity list.new }
{
    if room <= list.capacity() {
        return Ok(());
    }
    let doubled = list.capacity().saturating_mul(2);
    let mut wider = Vec::with_capacity(*list.allocator(), room.max(doubled))?;
    wider.extend_from_slice(list)?;
    *list = wider;
    Ok(())
}

// Puts bytes before the others. There is room for them.
pub(crate) fn prepend(list: &mut Vec<u8>, bytes: &[u8])
    requires { vec_len list.old + length bytes.now ≤ vec_capacity list.old }
    ensures items { list.new.items ≡ bytes.now ++ list.old.items }
    ensures capacity { vec_capacity list.old ≤ vec_capacity list.new }
{
    append(list, bytes);
    list.rotate_right(bytes.len());
}

// Puts marks that aren't set before the others. There is room for them.
pub(crate) fn prepend_unset(marks: &mut Vec<bool>, count: usize)
    requires { vec_len marks.old + count ≤ vec_capacity marks.old }
    ensures items { marks.new.items ≡ replicate count false ++ marks.old.items }
    ensures capacity { vec_capacity marks.old ≤ vec_capacity marks.new }
{
    append_unset(marks, count);
    marks.rotate_right(count);
}

// Sets the marks between two places.
pub(crate) fn mark_part(marks: &mut Vec<bool>, start: usize, end: usize, mark: bool)
    requires order { start ≤ end }
    requires within { end ≤ vec_len marks.old }
    ensures items { marks.new.items ≡ overwritten start (replicate (end - start) mark) marks.old.items }
    ensures capacity { vec_capacity marks.new ≡ vec_capacity marks.old }
{
    marks[start..end].fill(mark);
}

// Puts other bytes at those places between two that are marked, or are at or after the least end. The marks
// begin at the first of the two.
pub(crate) fn fill_open(
    bytes: &mut Vec<u8>,
    marks: &[bool],
    least: usize,
    start: usize,
    end: usize,
    pick: u64,
)
    requires order { start ≤ end }
    requires within { end ≤ vec_len bytes.old }
    ensures len { vec_len bytes.new ≡ vec_len bytes.old }
    ensures capacity { vec_capacity bytes.old ≤ vec_capacity bytes.new }
    ensures bytes { (k : ℕ) → slice_index bytes.new.items k
        ≡ (if nat_le start k && nat_lt k end && (nat_le least k || slice_index_or marks.now (k - start) false)
        then (pick + k) % 256
        else slice_index bytes.old.items k) }
{
    for place in start..end {
        if place >= least || is_set(marks, place - start) {
            bytes[place] = ((pick % 256 + place as u64 % 256) % 256) as u8;
        }
    }
}

// Whether the mark at a place is set. Past the last mark none is.
fn is_set(marks: &[bool], place: usize) -> bool
    ensures { result ≡ slice_index_or marks.now place false }
{
    match marks.get(place) {
        Some(mark) => *mark,
        None => false,
    }
}

// The bytes of a file in memory: as they are now, and those synced bytes that were overwritten since.
ghost use Rattle.std.specs.Prelude.{◌≡◌, ◌+◌, ◌≤◌, IsOk, OnOk, [], length, max, min, take};
ghost use Rattle.rs_disk.specs.File.{File, changed, write, cut, settled};

use crate::bytes::{
    append, append_unset, extend_room, fill_open, mark_part, overwrite, prepend, prepend_unset,
    widen,
};
use crate::past::Call;
use std::alloc::{AllocError, Global};

// The synced bytes are in place but for one part, from the first place written since to the last, and that
// part is kept. So a sync copies nothing, and a write no more than what it covers. There is always room for
// all of these bytes, since a write, a cut and a power cut may not take memory.
#[derive(Drop)]
pub(crate) struct Pages {
    // What a read gives, up to the end. What lies after the end is what was synced there, unless that is
    // kept; then it means nothing.
    pub(crate) now: Vec<u8>,
    // How long a file may get before memory is needed.
    pub(crate) room: usize,
    pub(crate) end: usize,
    // How many bytes the last sync left.
    pub(crate) synced: usize,
    // No place before this one was written or cut since the last sync.
    pub(crate) first: usize,
    // What the last sync left from there on, as far as it was overwritten since, and which of
    // these places were.
    pub(crate) kept: Vec<u8>,
    pub(crate) marks: Vec<bool>,
    // The least end since.
    pub(crate) least: usize,
}

impl Pages {
    ghost use Rattle.rs_disk.specs.Pages.{Holds, IsWithin, room_of};
    ghost use Rattle.rs_disk.specs.Calls.{CanCall};
    ghost use Rattle.rs_disk.specs.Past.{during};
    ghost use Rattle.rs_disk.specs.Picks.{picked};

    pub(crate) fn new(alloc: Global) -> Pages
        ensures file { Holds result (settled []) }
        ensures room { room_of result ≡ 0 }
    {
        Pages {
            now: Vec::new(alloc),
            room: 0,
            end: 0,
            synced: 0,
            first: 0,
            kept: Vec::new(alloc),
            marks: Vec::new(alloc),
            least: 0,
        }
    }

    // Makes room for files of this many bytes.
    pub(crate) fn grow(&mut self, room: usize) -> Result<(), AllocError>
        requires { IsWithin self.old }
        ensures ok { OnOk result (room ≤ room_of self.new) }
        ensures kept { room_of self.old ≤ room_of self.new }
        ensures file { (file : File) → Holds self.old file → Holds self.new file }
        ensures bound { room_of self.new ≤ max (room_of self.old) room }
        ensures enough { room ≤ room_of self.old → IsOk result }
    {
        if room <= self.room {
            return Ok(());
        }
        extend_room(&mut self.now, room)?;
        widen(&mut self.kept, room)?;
        widen(&mut self.marks, room)?;
        self.room = room;
        Ok(())
    }

    // Keeps what was synced from a place on, up to what is already kept.
    fn keep_from(&mut self, at: usize)
        requires within { IsWithin self.old }
        ensures room { room_of self.new ≡ room_of self.old }
        ensures end { self.new.end ≡ self.old.end }
        ensures first { self.new.first ≡ min self.old.first at }
        ensures within { IsWithin self.new }
        ensures file { (file : File) → Holds self.old file → Holds self.new file }
    {
        if at >= self.first {
            return;
        }
        if self.kept.is_empty() {
            self.first = at;
            return;
        }
        prepend(&mut self.kept, &self.now[at..self.first]);
        prepend_unset(&mut self.marks, self.first - at);
        self.first = at;
    }

    // Keeps what was synced up to a place, from what is already kept on.
    fn keep_to(&mut self, to: usize)
        requires within { IsWithin self.old }
        ensures room { room_of self.new ≡ room_of self.old }
        ensures end { self.new.end ≡ self.old.end }
        ensures first { self.new.first ≡ self.old.first }
        ensures to { min to self.new.synced ≤ self.new.first + length self.new.kept.items }
        ensures within { IsWithin self.new }
        ensures file { (file : File) → Holds self.old file → Holds self.new file }
    {
        let last = self.first + self.kept.len();
        let to = to.min(self.synced);
        if to <= last {
            return;
        }
        append(&mut self.kept, &self.now[last..to]);
        append_unset(&mut self.marks, to - last);
    }

    pub(crate) fn write(&mut self, at: usize, bytes: &[u8])
        requires within { IsWithin self.old }
        requires start { at ≤ self.old.end }
        requires room { at + length bytes.now ≤ room_of self.old }
        ensures room { room_of self.new ≡ room_of self.old }
        ensures file { (file : File) → Holds self.old file
            → Holds self.new (changed (write at bytes.now) file) }
    {
        self.keep_from(at);
        self.keep_to(at + bytes.len());
        self.put(at, bytes);
    }

    // Writes where the synced bytes are already kept.
    fn put(&mut self, at: usize, bytes: &[u8])
        requires within { IsWithin self.old }
        requires after { self.old.first ≤ at }
        requires kept { min (at + length bytes.now) self.old.synced
            ≤ self.old.first + length self.old.kept.items }
        requires start { at ≤ self.old.end }
        requires room { at + length bytes.now ≤ room_of self.old }
        ensures room { room_of self.new ≡ room_of self.old }
        ensures file { (file : File) → Holds self.old file
            → Holds self.new (changed (write at bytes.now) file) }
    {
        let start = at - self.first;
        let end = self.marks.len();
        mark_part(
            &mut self.marks,
            start.min(end),
            (start + bytes.len()).min(end),
            true,
        );
        overwrite(&mut self.now, at, bytes);
        self.end = self.end.max(at + bytes.len());
    }

    pub(crate) fn cut(&mut self, to: usize)
        requires within { IsWithin self.old }
        requires place { to ≤ self.old.end }
        ensures room { room_of self.new ≡ room_of self.old }
        ensures file { (file : File) → Holds self.old file → Holds self.new (changed (cut to) file) }
    {
        self.keep_from(to);
        self.end = to;
        self.least = self.least.min(to);
    }

    // What a call does before its outcome is known.
    pub(crate) fn begin(&mut self, call: &Call<'_>)
        requires { CanCall call.now self.old }
        ensures room { room_of self.new ≡ room_of self.old }
        ensures file { (file : File) → Holds self.old file → Holds self.new (during call.now file) }
    {
        match *call {
            Call::Write(at, bytes) => self.write(at as usize, bytes),
            Call::Cut(to) => self.cut(to as usize),
            _ => {}
        }
    }

    // From now on what is there counts as synced.
    pub(crate) fn settle(&mut self)
        requires { IsWithin self.old }
        ensures room { room_of self.new ≡ room_of self.old }
        ensures file { Holds self.new (settled (take self.old.end self.old.now.items)) }
    {
        self.kept.clear();
        self.marks.clear();
        self.least = self.end;
        self.first = self.end;
        self.synced = self.end;
    }

    // The power is cut. The pick chooses what is left.
    pub(crate) fn lose(&mut self, pick: u64)
        requires { (file : File) × Holds self.old file }
        ensures room { room_of self.new ≡ room_of self.old }
        ensures file { (file : File) → Holds self.old file → Holds self.new (settled (picked pick file)) }
    {
        match pick {
            0 => {
                overwrite(&mut self.now, self.first, &self.kept);
                self.end = self.synced;
            }
            1 => {}
            _ => fill_open(
                &mut self.now,
                &self.marks,
                self.least,
                self.first,
                self.end,
                pick,
            ),
        }
        self.settle();
    }
}

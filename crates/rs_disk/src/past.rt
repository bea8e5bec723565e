// What a file in memory was at each moment so far. It exists only in proofs and takes no memory.
ghost use Rattle.std.specs.Prelude.{◌≡◌, List};
ghost use Rattle.std.specs.Borrow.{ftrue};
ghost use Rattle.rs_disk.specs.File.{File};
ghost use Rattle.rs_disk.specs.Orders.{Orders};

use std::marker::Model;

#[derive(Drop)]
pub(crate) struct Past {
    pub(crate) ghost file: { File },
    // What it was before, the newest first.
    pub(crate) ghost before: { List File },
    pub(crate) ghost orders: { Orders },
}

impl Model for Past {
    ghost also_owns = { λ _. ftrue };
}

// A struct with `also_owns` isn't `Send` by itself. This one owns nothing.
unsafe impl Send for Past {}

// What a call does.
#[derive(Clone, Copy, Drop)]
pub(crate) enum Call<'a> {
    Read,
    Write(u64, &'a [u8]),
    Cut(u64),
    Sync,
    Arm(u32, Option<u64>),
    PowerCut(u64),
}

// How it ends.
#[derive(Clone, Copy, Drop)]
pub(crate) enum End<'a> {
    Done,
    // It failed, and nothing was done.
    Undone,
    // A power cut left these bytes.
    Left(&'a [u8]),
}

#[derive(Clone, Copy, Drop)]
pub(crate) struct Event<'a> {
    pub(crate) call: Call<'a>,
    pub(crate) end: End<'a>,
}

impl Past {
    ghost use Rattle.rs_disk.specs.Past.{no_past, past_after};

    pub(crate) fn new() -> Past
        ensures { result ≡ no_past }
    {
        Past {}
    }

    pub(crate) fn then(&self, _event: &Event<'_>) -> Past
        ensures { result ≡ past_after _event.now self.now }
    {
        Past {}
    }
}

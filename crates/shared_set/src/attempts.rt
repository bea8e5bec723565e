// What the turns at a shared set did. It exists in proofs alone and takes no memory.
ghost use Rattle.std.specs.Prelude.{◌≡◌, List};
ghost use Rattle.std.specs.Borrow.{ftrue};
ghost use Rattle.std.specs.Coded.{coded_list};
ghost use Rattle.shared_set.specs.contracts.attempt.Attempt as attempt;
ghost use Rattle.shared_set.specs.declared.attempt.Attempt.{Attempt as AnAttempt};

use set_model::{Command, Event};
use std::marker::Model;

/// What each turn did, oldest first. It takes no memory.
#[derive(Drop)]
pub(crate) struct Attempts {
    pub(crate) ghost list: { List AnAttempt } by { coded_list attempt.the_row.coded },
}

impl Model for Attempts {
    ghost also_owns = { λ _. ftrue };
}

// A struct with `also_owns` isn't `Send` by itself. This one owns nothing.
unsafe impl Send for Attempts {}

/// A turn, and how many events the history had before it.
#[derive(Clone, Copy, Drop)]
pub(crate) struct Turn<'a> {
    pub(crate) before: usize,
    pub(crate) history: &'a [Event],
    pub(crate) line: u32,
    pub(crate) command: &'a Command,
}

impl Attempts {
    ghost use Rattle.shared_set.specs.Attempts.{more_tried, none_tried};

    pub(crate) fn new() -> Attempts
        ensures { result ≡ none_tried }
    {
        Attempts {}
    }

    pub(crate) fn then(&self, _turn: &Turn<'_>) -> Attempts
        ensures { result ≡ more_tried _turn.now self.now }
    {
        Attempts {}
    }
}

// A call that is to fail.
ghost use Rattle.std.specs.Prelude.{◌≡◌, Some, MatchOption, false, true};

#[derive(Clone, Copy, Drop)]
pub(crate) struct Arm {
    // Which of the calls from now on, counted from 1.
    pub(crate) calls: u32,
    // Which image a power cut within the call leaves, where the fault is a power cut.
    pub(crate) pick: Option<u64>,
}

impl Arm {
    ghost use Rattle.rs_disk.specs.FailsAsArmed.{fails_next, counted};

    // Counts a call, and gives the arm where that call is to fail.
    pub(crate) fn count(next: &mut Option<Arm>) -> Option<Arm>
        ensures fails_next { MatchOption result (fails_next next.old ≡ false)
            (λ arm. (next.old ≡ Some arm) × (fails_next next.old ≡ true)) }
        ensures counted { next.new ≡ counted next.old }
    {
        match *next {
            None => None,
            Some(arm) if arm.calls <= 1 => {
                *next = None;
                Some(arm)
            }
            Some(arm) => {
                *next = Some(Arm {
                    calls: arm.calls - 1,
                    pick: arm.pick,
                });
                None
            }
        }
    }
}

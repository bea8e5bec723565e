// Blocks of a script: their lists run on threads.
use crate::running::{NOTHING, RUN, ran};
use batch_applier::Gate;
use set_model::Event;
use std::alloc::{AllocError, Global};
use std::sync::atomic::{AtomicU64, Ordering};
use std::test::Fail;
use std::thread;

/// The most lists that a block can have.
pub const LISTS: u32 = 16;

/// How many lines each has.
pub const LINES: u32 = 50;

// A bit for each one's place.
const PLACES: u64 = 0xffff;

// How often a list looks for the others.
const TURNS: u32 = 1_000_000;

/// Holds each list until all have passed, for a number of turns.
#[derive(Drop)]
pub struct Held {
    places: AtomicU64,
    passed: AtomicU64,
    in_time: AtomicU64,
}

impl Held {
    pub fn new() -> Self {
        Held {
            places: AtomicU64::new(0),
            passed: AtomicU64::new(0),
            in_time: AtomicU64::new(0),
        }
    }

    /// Whether each list passed once, with the place of its own, and saw that all had.
    pub fn passed_in_time(&self) -> bool {
        let lists = u64::from(LISTS);
        self.places.load(Ordering::SeqCst) == PLACES
            && self.passed.load(Ordering::SeqCst) == lists
            && self.in_time.load(Ordering::SeqCst) == lists
    }
}

impl Gate for Held {
    fn pass(&self, list: u32) {
        if list < LISTS {
            self.places.fetch_or(1 << list, Ordering::SeqCst);
        }
        self.passed.fetch_add(1, Ordering::SeqCst);
        for _ in 0..TURNS {
            if self.passed.load(Ordering::SeqCst) >= u64::from(LISTS) {
                self.in_time.fetch_add(1, Ordering::SeqCst);
                return;
            }
            thread::yield_now();
        }
    }
}

/// A block alone, of all lists.
pub fn block(alloc: Global) -> Result<String, AllocError> {
    let mut script = String::from_str(alloc, "set 1\npar\n")?;
    for _ in 0..LISTS {
        script.push_str("thread\n")?;
        for _ in 0..LINES {
            script.push_str("clock n0 1\n")?;
        }
    }
    script.push_str("end\n")?;
    Ok(script)
}

/// Whether the first events, one for each list, are all of lines that lists begin with: the first such line
/// comes after `set 1`, `par` and `thread`, and each list has a line `thread` of its own.
fn are_first(events: &[Event]) -> bool {
    for event in events.iter().take(LISTS as usize) {
        if event.line % (LINES + 1) != 4 {
            return false;
        }
    }
    true
}

// If two lists ran one after another, the first would never see that all have passed. If a list passed the
// gate after its first line, the first lines of all lists would be done before any second one.
#[test]
fn lists_run_side_by_side(rt: HostRuntime) -> Result<(), Fail> {
    let held = Held::new();
    let script = block(rt.alloc())?;
    let (outcome, _) = ran(&rt, rt.alloc(), RUN, &script, NOTHING, &held)?;
    assert_eq!(rt; outcome.status, 0);
    assert!(rt; held.passed_in_time());
    assert!(rt; !are_first(outcome.events()));
    Ok(())
}

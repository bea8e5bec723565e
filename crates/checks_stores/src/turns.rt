// Threads that take turns on a list of marks.
ghost use Rattle.std.specs.Prelude.{◌≡◌, ◌<◌, [], length, if◌then◌else◌, ◌==◌, ⊤};
ghost use Rattle.turn_board.specs.Passes.{view, point_count, IsPassOf, IsFree};

use std::alloc::Global;
use std::sync::Wait;
use std::test::Fail;
use std::thread::{Threads, join, yield_now};
use turn_board::{Board, Pass, Turned};

// The most turns that a caller takes to see the other.
const TURNS: u32 = 2_000_000;

// The marks that callers left. Point 0 counts them.
#[derive(Drop)]
struct Marks {
    marks: Vec<u32>,
}

impl Turned for Marks {
    type Entry = u32;

    type Fixed = ();

    ghost entries = { λ m. m.marks.items };

    ghost fixed = { λ m. [] };

    ghost number_at = { λ fixed marks point. if point == 0 then length marks else 0 };

    ghost sound = { λ fixed marks. ⊤ };

    fn number(&self, point: u32) -> u64 {
        if point == 0 {
            self.marks.len() as u64
        } else {
            0
        }
    }

    fn recall_sound(&self) {}
}

// Leaves its mark unless it is there or memory is short. The result is whether the other's is there.
fn take_turn<R: Wait>(
    rt: &R,
    board: &Board<Marks>,
    pass: &mut Pass<Marks>,
    mark: u32,
    other: u32,
) -> bool
    requires pass { IsPassOf (λ m. m.marks.items) (λ m. []) board.now pass.old × IsFree pass.old }
    requires point { 0 < point_count board.now }
    ensures pass { IsPassOf (λ m. m.marks.items) (λ m. []) board.now pass.new × IsFree pass.new }
    ensures parts { (view pass.new).parts ≡ (view pass.old).parts }
{
    let mut value = board.enter(rt, pass);
    let seen = value.marks.contains(&other);
    if !value.marks.contains(&mark) {
        let _ = value.marks.push(mark);
    }
    board.leave(pass, value, 0);
    seen
}

// Takes turns until it sees the other's mark.
fn meet<R: Wait>(
    rt: &R,
    board: &Board<Marks>,
    mut pass: Pass<Marks>,
    mark: u32,
    other: u32,
) -> (bool, Pass<Marks>)
    requires pass { IsPassOf (λ m. m.marks.items) (λ m. []) board.now pass × IsFree pass }
    requires point { 0 < point_count board.now }
    ensures pass { IsPassOf (λ m. m.marks.items) (λ m. []) board.entry.now result.1 × IsFree result.1 }
    ensures parts { (view result.1).parts ≡ (view pass).parts }
{
    for _ in 0..TURNS {
        if take_turn(rt, board, &mut pass, mark, other) {
            return (true, pass);
        }
        yield_now();
    }
    (false, pass)
}

// Two callers, each of whom sees the other's mark before it ends, and how many marks are left.
fn two_callers<R: Threads + Wait + Sync>(rt: &R, alloc: Global) -> Option<(bool, bool, usize)> {
    let marks = Marks {
        marks: Vec::new(alloc),
    };
    let Ok((board, mut pass)) = Board::new(alloc, marks, 1) else {
        return None;
    };
    let other = board.split(&mut pass);
    let ((one, mut pass), (two, other)) = join(
        rt,
        || -> (bool, Pass<Marks>)
            requires { IsPassOf (λ m. m.marks.items) (λ m. []) board pass × IsFree pass
                × (0 < point_count board) }
            ensures { IsPassOf (λ m. m.marks.items) (λ m. []) board result.1 × IsFree result.1
                × ((view result.1).parts ≡ (view pass).parts) }
        { meet(rt, &board, pass, 1, 2) },
        || -> (bool, Pass<Marks>)
            requires { IsPassOf (λ m. m.marks.items) (λ m. []) board other × IsFree other
                × (0 < point_count board) }
            ensures { IsPassOf (λ m. m.marks.items) (λ m. []) board result.1 × IsFree result.1
                × ((view result.1).parts ≡ (view other).parts) }
        { meet(rt, &board, other, 2, 1) },
    );
    board.join(&mut pass, other);
    Some((one, two, board.close(pass).marks.len()))
}

#[test]
fn two_callers_see_each_other(rt: HostRuntime) -> Result<(), Fail> {
    assert!(rt; two_callers(&rt, rt.alloc()) == Some((true, true, 2)));
    Ok(())
}

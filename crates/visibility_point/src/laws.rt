ghost use Rattle.std.specs.Prelude.{◌≡◌, List, ◌++◌};
ghost use Rattle.oplog_entry.specs.Visible.{log_up_to};
ghost use Rattle.visibility_point.specs.Holes.{State, Action, IsSound, AreAllowed, run, answer};

/// Start from a log with no entry past the mark, and take any actions: what was visible is what the log has
/// up to there ever after. So no entry appears at or before a visible optime that was once returned.
pub fn nothing_appears_after()
    ensures { (start : State) (earlier later : List Action) → IsSound start
        → AreAllowed start (earlier ++ later)
        → log_up_to (answer (run start earlier)) (run start (earlier ++ later)).log
        ≡ log_up_to (answer (run start earlier)) (run start earlier).log }
{}

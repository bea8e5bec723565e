// What holds of the worlds that a search comes to.
ghost use Rattle.std.specs.Prelude.{ℕ};
ghost use Rattle.set_model.specs.Run.{AreSizes};
ghost use Rattle.set_model.specs.World.{World};
ghost use Rattle.explore_words.specs.declared.question.Question.{Question};
ghost use Rattle.question_laws.specs.Following.{sizes_in};
ghost use Rattle.checker_machine.specs.Reached.{AreSound, CanBeTaken};
ghost use Rattle.explore_steps.specs.Reaching.{IsReachedBefore};

use safety_laws::{configs_are_lawful, messages_can_be_taken, nodes_are_sound, numbers_stay_small};

/// Each node is sound, and each message that was sent is for a node of the set, which can take it.
pub(crate) fn worlds_are_sound()
    ensures nodes { (question : Question) (spare : ℕ) (world : World) → AreSizes (sizes_in question)
        → IsReachedBefore spare question world → AreSound world }
    ensures messages { (question : Question) (spare : ℕ) (world : World) → AreSizes (sizes_in question)
        → IsReachedBefore spare question world → CanBeTaken world }
{
    numbers_stay_small();
    configs_are_lawful();
    nodes_are_sound();
    messages_can_be_taken();
}

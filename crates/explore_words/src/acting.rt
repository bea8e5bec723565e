// The lines of an act.
ghost use Rattle.std.specs.Prelude.{◌≡◌};
ghost use Rattle.std.specs.Option.{option_copied};
ghost use Rattle.explore_words.specs.Gives.{Gives};
ghost use Rattle.explore_words.specs.Question.{act_line, add_any, add_verb, lacks_line, line_count, new_act};

use crate::fault::{QuestionRule, Stop};
use crate::lists::Commands;
use crate::question::Act;
use crate::words::{is_star, names_one, verb};
use script_words::{Left, Verb, command};
use std::alloc::Global;

/// How many lines an act may have.
const MAX_LINES: usize = 1000;

impl Act {
    /// An act without a line yet.
    pub(crate) fn new(alloc: Global, limit: Option<u32>) -> Self
        ensures { result ≡ new_act limit }
    {
        Act {
            limit,
            any_message: false,
            commands: Commands::new(alloc),
        }
    }

    /// How many lines it has.
    pub fn line_count(&self) -> usize
        ensures { result ≡ line_count self.now }
    {
        let count = self.commands.as_slice().len();
        if self.any_message { count + 1 } else { count }
    }

    /// Whether it has no line.
    pub(crate) fn lacks_line(&self) -> bool
        ensures { result ≡ lacks_line self.now }
    {
        self.line_count() == 0
    }

    /// The same act with this line.
    #[tactic(auto, unfolding(crate::specs::Question::act_line))]
    pub(crate) fn with_line(self, alloc: Global, nodes: u32, text: &str) -> Result<Self, Stop>
        ensures { Gives (λ act. act) result (act_line nodes text.now self) }
    {
        let (verb, left) = verb(text)?;
        self.with_verb(alloc, nodes, verb, left)
    }

    fn with_verb(self, alloc: Global, nodes: u32, verb: Verb, left: Left<'_>) -> Result<Self, Stop>
        ensures { Gives (λ act. act) result (add_verb nodes self verb (option_copied left.entry)) }
    {
        if self.line_count() >= MAX_LINES {
            return Err(Stop::Rule(QuestionRule::BadAct));
        }
        if names_one(verb, left) {
            return Ok(self.with_any(left)?);
        }
        let mut act = self;
        let command = command(alloc, nodes, verb, left)?;
        act.commands.push(command)?;
        Ok(act)
    }

    /// The same act with `deliver *`, which stands first.
    fn with_any(self, left: Left<'_>) -> Result<Self, QuestionRule>
        ensures { result ≡ add_any self (option_copied left.entry) }
    {
        if is_star(left) && self.lacks_line() {
            Ok(Act {
                any_message: true,
                ..self
            })
        } else {
            Err(QuestionRule::BadAct)
        }
    }
}

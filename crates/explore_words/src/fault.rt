ghost use Rattle.std.specs.Prelude.{◌≡◌};

use script_words::{LineError, ScriptRule};
use std::alloc::AllocError;

/// The rule that a line of a question breaks.
#[derive(Clone, Copy, Debug, PartialEq, Eq)]
pub enum QuestionRule {
    /// A rule that scripts have, too.
    Script(ScriptRule),
    /// `want`, or the end, without an act.
    NoMayLine,
    /// The end without a want.
    NoWantLine,
    /// An act without a line or with more than 1,000, or a line that can't stand there in an act.
    BadAct,
    /// A want without a line, or a line that can't stand there in a want.
    BadWant,
    /// There are more than 1,000 acts.
    TooManyActs,
    /// There are more than 100 wants.
    TooManyWants,
}

/// The first faulty line of a question, counted from 1, and its rule.
#[derive(Clone, Copy, Debug, PartialEq, Eq)]
pub struct QuestionFault {
    pub line: u32,
    pub rule: QuestionRule,
}

/// Why bytes give no question.
#[derive(Clone, Copy, Debug, PartialEq, Eq)]
pub enum QuestionError {
    /// The first faulty line, with its first fault.
    Fault(QuestionFault),
    /// Out of memory.
    Memory,
}

impl From<QuestionFault> for QuestionError {
    ghost use Rattle.explore_words.specs.declared.fault.QuestionError.TheVariants.{Fault};

    ghost from_gives = { λ fault error. error ≡ Fault fault };

    fn from(fault: QuestionFault) -> Self {
        QuestionError::Fault(fault)
    }
}

/// Why a line isn't added.
#[derive(Clone, Copy, Debug, PartialEq, Eq)]
pub enum Stop {
    /// The first rule that the line breaks.
    Rule(QuestionRule),
    /// Out of memory.
    Memory,
}

impl From<QuestionRule> for Stop {
    ghost use Rattle.explore_words.specs.declared.fault.Stop.TheVariants.{Rule};

    ghost from_gives = { λ rule stop. stop ≡ Rule rule };

    fn from(rule: QuestionRule) -> Self {
        Stop::Rule(rule)
    }
}

impl From<ScriptRule> for Stop {
    ghost use Rattle.explore_words.specs.declared.fault.QuestionRule.TheVariants.{Script};
    ghost use Rattle.explore_words.specs.declared.fault.Stop.TheVariants.{Rule};

    ghost from_gives = { λ rule stop. stop ≡ Rule (Script rule) };

    fn from(rule: ScriptRule) -> Self {
        Stop::Rule(QuestionRule::Script(rule))
    }
}

impl From<LineError> for Stop {
    ghost use Rattle.explore_words.specs.Gives.{stop_of};

    ghost from_gives = { λ error stop. stop ≡ stop_of error };

    fn from(error: LineError) -> Self {
        match error {
            LineError::Rule(rule) => Stop::Rule(QuestionRule::Script(rule)),
            LineError::Memory => Stop::Memory,
        }
    }
}

impl From<AllocError> for Stop {
    ghost use Rattle.explore_words.specs.declared.fault.Stop.TheVariants.{Memory};

    ghost from_gives = { λ _ stop. stop ≡ Memory };

    fn from(_: AllocError) -> Self {
        Stop::Memory
    }
}

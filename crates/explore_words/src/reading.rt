// What was read of a question so far, after some of its lines.
ghost use Rattle.std.specs.Prelude.{◌≡◌};
ghost use Rattle.std.specs.Option.{option_copied};
ghost use Rattle.script_words.specs.Gives.{Reads};
ghost use Rattle.explore_words.specs.Gives.{Gives};
ghost use Rattle.explore_words.specs.Question.{begin_act, begin_want, end_act, end_acts, end_want, ended, limit_at, next_act, next_want, some_wants, start, whole, with_command, with_line, with_part, with_set, with_text, with_word, with_words};

use crate::fault::{QuestionRule, Stop};
use crate::lists::{Acts, Commands, Wants};
use crate::open_want::OpenWant;
use crate::question::{Act, Question};
use crate::words::verb;
use fault_script::{is_passed_over, text_of};
use script_words::{Left, ScriptRule, SetLine, Shape, command, has_shape, number, set_line, word};
use std::alloc::Global;

/// How many acts a question may have.
const MAX_ACTS: usize = 1000;

/// How often an act with a limit may be done at most.
const MAX_LIMIT: u32 = 1000;

/// How many wants a question may have.
const MAX_WANTS: usize = 100;

/// What was read of a question so far, after some of its lines.
#[derive(Drop)]
pub struct Reading {
    /// The sizes of the set, after the `set` line.
    set: Option<SetLine>,
    beginning: Commands,
    acts: Acts,
    /// The act that is being read.
    act: Option<Act>,
    wants: Wants,
    /// The want that is being read.
    want: Option<OpenWant>,
}

impl Reading {
    /// Nothing is read yet.
    pub fn new(alloc: Global) -> Self
        ensures { result ≡ start }
    {
        Reading {
            set: None,
            beginning: Commands::new(alloc),
            acts: Acts::new(alloc),
            act: None,
            wants: Wants::new(alloc),
            want: None,
        }
    }

    /// Adds a line, which has this number.
    #[tactic(auto, unfolding(crate::specs::Question::with_line))]
    pub fn add_line(&mut self, alloc: Global, number: u32, line: &[u8]) -> Result<(), Stop>
        ensures { Gives (λ _. self.new) result (with_line number self.old line.now) }
    {
        let text = text_of(number, line)?;
        if is_passed_over(text) {
            return Ok(());
        }
        self.add_text(alloc, text)
    }

    fn add_text(&mut self, alloc: Global, text: &str) -> Result<(), Stop>
        ensures { Gives (λ _. self.new) result (with_text self.old text.now self.old.set) }
    {
        match self.set {
            Some(set) => self.add_words(alloc, set.nodes, text),
            None => self.add_set(text),
        }
    }

    /// The first line is `set`.
    fn add_set(&mut self, text: &str) -> Result<(), Stop>
        ensures { Gives (λ _. self.new) result (with_set self.old text.now) }
    {
        self.set = Some(set_line(text)?);
        Ok(())
    }

    /// A later line, in a set of so many nodes.
    #[tactic(auto, unfolding(crate::specs::Question::with_words))]
    fn add_words(&mut self, alloc: Global, nodes: u32, text: &str) -> Result<(), Stop>
        ensures { Gives (λ _. self.new) result (with_words nodes self.old text.now) }
    {
        let (first, left) = word(Some(text))?;
        self.add_word(alloc, nodes, text, first, left)
    }

    fn add_word(
        &mut self,
        alloc: Global,
        nodes: u32,
        text: &str,
        first: &str,
        left: Left<'_>,
    ) -> Result<(), Stop>
        ensures { Gives (λ _. self.new) result
            (with_word nodes self.old text.now first.now (option_copied left.entry)) }
    {
        match first.as_bytes() {
            b"may" => {
                if !has_shape(left, Shape::Words { least: 0, most: 1 }) {
                    return Err(Stop::Rule(QuestionRule::Script(ScriptRule::WordCount)));
                }
                self.begin_act(alloc, left)
            }
            b"want" => {
                if !has_shape(left, Shape::Words { least: 0, most: 0 }) {
                    return Err(Stop::Rule(QuestionRule::Script(ScriptRule::WordCount)));
                }
                self.begin_want(alloc)
            }
            _ => self.add_part(alloc, nodes, text),
        }
    }

    fn begin_act(&mut self, alloc: Global, left: Left<'_>) -> Result<(), Stop>
        ensures { Gives (λ _. self.new) result (begin_act self.old (option_copied left.entry) self.old.want) }
    {
        if self.want.is_some() {
            return Err(Stop::Rule(QuestionRule::Script(ScriptRule::StrayLine)));
        }
        self.end_act()?;
        self.next_act(alloc, left)
    }

    fn next_act(&mut self, alloc: Global, left: Left<'_>) -> Result<(), Stop>
        ensures { Gives (λ _. self.new) result (next_act self.old (option_copied left.entry)) }
    {
        if self.acts.as_slice().len() >= MAX_ACTS {
            return Err(Stop::Rule(QuestionRule::TooManyActs));
        }
        let limit = limit(left)?;
        self.act = Some(Act::new(alloc, limit));
        Ok(())
    }

    #[tactic(auto, unfolding(crate::specs::Question::begin_want))]
    fn begin_want(&mut self, alloc: Global) -> Result<(), Stop>
        ensures { Gives (λ _. self.new) result (begin_want self.old) }
    {
        self.end_acts()?;
        self.end_want(alloc)?;
        self.next_want(alloc)
    }

    fn next_want(&mut self, alloc: Global) -> Result<(), Stop>
        ensures { Gives (λ _. self.new) result (next_want self.old) }
    {
        if self.wants.as_slice().len() >= MAX_WANTS {
            return Err(Stop::Rule(QuestionRule::TooManyWants));
        }
        self.want = Some(OpenWant::new(alloc));
        Ok(())
    }

    /// The act that is being read ends.
    fn end_act(&mut self) -> Result<(), Stop>
        ensures { Gives (λ _. self.new) result (end_act self.old self.old.act) }
    {
        let Some(act) = self.act.take() else {
            return Ok(());
        };
        if act.lacks_line() {
            return Err(Stop::Rule(QuestionRule::BadAct));
        }
        self.acts.push(act)?;
        Ok(())
    }

    /// The acts end.
    #[tactic(auto, unfolding(crate::specs::Question::end_acts))]
    fn end_acts(&mut self) -> Result<(), Stop>
        ensures { Gives (λ _. self.new) result (end_acts self.old) }
    {
        self.end_act()?;
        if self.acts.as_slice().is_empty() {
            return Err(Stop::Rule(QuestionRule::NoMayLine));
        }
        Ok(())
    }

    /// The want that is being read ends.
    fn end_want(&mut self, alloc: Global) -> Result<(), Stop>
        ensures { Gives (λ _. self.new) result (end_want self.old self.old.want) }
    {
        let Some(want) = self.want.take() else {
            return Ok(());
        };
        if want.is_new() {
            return Err(Stop::Rule(QuestionRule::BadWant));
        }
        self.wants.push(want.into_want(alloc)?)?;
        Ok(())
    }

    /// A line of the want or the act that is being read, or of the beginning.
    fn add_part(&mut self, alloc: Global, nodes: u32, text: &str) -> Result<(), Stop>
        ensures { Gives (λ _. self.new) result
            (with_part nodes self.old text.now self.old.act self.old.want) }
    {
        if let Some(want) = self.want.take() {
            self.want = Some(want.with_line(alloc, nodes, text)?);
            return Ok(());
        }
        if let Some(act) = self.act.take() {
            self.act = Some(act.with_line(alloc, nodes, text)?);
            return Ok(());
        }
        self.add_command(alloc, nodes, text)
    }

    /// A command of the beginning.
    #[tactic(auto, unfolding(crate::specs::Question::with_command))]
    fn add_command(&mut self, alloc: Global, nodes: u32, text: &str) -> Result<(), Stop>
        ensures { Gives (λ _. self.new) result (with_command nodes self.old text.now) }
    {
        let (verb, left) = verb(text)?;
        let command = command(alloc, nodes, verb, left)?;
        self.beginning.push(command)?;
        Ok(())
    }

    /// The question, once all its lines are added.
    pub fn finish(self, alloc: Global) -> Result<Question, Stop>
        ensures { Gives (λ question. question) result (whole self self.set) }
    {
        match self.set {
            Some(set) => self.ended(alloc, set),
            None => Err(Stop::Rule(QuestionRule::Script(ScriptRule::NoSetLine))),
        }
    }

    #[tactic(auto, unfolding(crate::specs::Question::ended))]
    fn ended(self, alloc: Global, set: SetLine) -> Result<Question, Stop>
        ensures { Gives (λ question. question) result (ended self set) }
    {
        let mut reading = self;
        reading.end_acts()?;
        reading.end_want(alloc)?;
        reading.with_wants(set)
    }

    /// The question, where there is a want.
    fn with_wants(self, set: SetLine) -> Result<Question, Stop>
        ensures { Gives (λ question. question) result (some_wants self set) }
    {
        if self.wants.as_slice().is_empty() {
            return Err(Stop::Rule(QuestionRule::NoWantLine));
        }
        Ok(Question {
            sizes: set,
            beginning: self.beginning,
            acts: self.acts,
            wants: self.wants,
        })
    }
}

/// How often an act may be done, or none where nothing says it.
fn limit(left: Left<'_>) -> Result<Option<u32>, ScriptRule>
    ensures { Reads (λ limit. limit) result (limit_at (option_copied left.entry)) }
{
    if left.is_none() {
        return Ok(None);
    }
    let (limit, _) = number(left, 1, MAX_LIMIT)?;
    Ok(Some(limit))
}

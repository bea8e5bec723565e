// The events of a run that was found.
ghost use Rattle.std.specs.List.{list_any};
ghost use Rattle.std.specs.Prelude.{◌≡◌, ◌∷◌, [], ℕ, suc, drop, false, length, true, IfOk, IfSome, OnOk, None, Option, Some, slice_get};
ghost use Rattle.rs_optime.specs.Membership.{In};
ghost use Rattle.set_model.specs.declared.command.Command.TheVariants.{Deliver};
ghost use Rattle.set_model.specs.Limits.{Fits};
ghost use Rattle.set_model.specs.World.{is_between};
ghost use Rattle.checker_machine.specs.Reached.{IsReached};
ghost use Rattle.explore_laws.specs.Dead.{has_dead, is_dead_in as is_dead_there};
ghost use Rattle.repl_msg.specs.declared.message.Message.{Message as Sent};
ghost use Rattle.explore_words.specs.declared.question.Act.{Act as AskedAct};
ghost use Rattle.explore_words.specs.declared.question.Question.{Question as AskedQuestion};
ghost use Rattle.question_laws.specs.Doing.{act_done, event_of as happens, is_done as is_line_done, lines_done};
ghost use Rattle.question_laws.specs.Lawful.{AreFor};
ghost use Rattle.explore_steps.specs.Courses.{BeginsWith};
ghost use Rattle.explore_steps.specs.Reaching.{IsPut, IsReachedBefore};
ghost use Rattle.explore_steps.specs.Tables.{tables_of};
ghost use Rattle.explorer.specs.Exploring.{IsAsked};
ghost use Rattle.explorer.specs.Replaying.{Does, IsRunBegun, first_done};

use bson_doc::Mem;
use checker_machine::{Machine, StepError};
use explore_steps::{Doing, First, Steps, is_dead};
use explore_tables::same_message;
use explore_words::{Commands, Question};
use repl_msg::Message;
use set_model::{Command, Event};
use std::alloc::{AllocError, Global};

/// A run of a question: the world that it has come to, and its events.
#[derive(Drop)]
pub(crate) struct Run {
    pub(crate) machine: Machine,
    pub(crate) events: Vec<Event>,
}

/// The event of a command.
fn event_of(command: &Command) -> Mem<Event>
    ensures { IfOk result (λ event. event ≡ happens command.now) }
{
    Ok(Event {
        command: command.copy()?,
        line: 0,
        failed: None,
        kept: false,
    })
}

/// The event that delivers a message.
fn delivery(message: u64) -> Event
    ensures { result ≡ happens (Deliver message) }
{
    Event {
        command: Command::Deliver { message },
        line: 0,
        failed: None,
        kept: false,
    }
}

/// Whether a message can't change anything any more.
fn is_dead_in(machine: &Machine, message: &Message) -> bool
    ensures { result ≡ is_dead_there machine.now message.now }
{
    match machine.nodes().get(message.to as usize) {
        Some(node) => is_dead(node, message),
        None => true,
    }
}

/// Whether a message from one node to another was sent after so many.
fn was_sent(messages: &[Message], before: usize, from: u32, to: u32) -> bool
    ensures { result ≡ list_any (is_between from to) (drop before messages.now) }
{
    messages
        .iter()
        .skip(before)
        .any(|message| message.from == from && message.to == to)
}

impl Run {
    /// The beginning of a question.
    pub(crate) fn begin(alloc: Global, question: &Question) -> Mem<Run>
        requires { (depth : ℕ) × IsAsked question.now depth }
        ensures { IfOk result (IsRunBegun question.now) }
    {
        let sizes = question.sizes;
        let mut run = Run {
            machine: Machine::open(alloc, sizes.nodes, sizes.voters, sizes.members)?,
            events: Vec::new(alloc),
        };
        for command in question.beginning.as_slice() {
            run.step(event_of(command)?)?;
        }
        Ok(run)
    }

    /// Does one event more.
    fn step(&mut self, event: Event) -> Mem<()>
        requires reached { IsReached self.old.machine }
        requires fits { Fits self.old.machine event }
        ensures { OnOk result (Does self.old self.new (event ∷ [])) }
    {
        match self.machine.step(&event) {
            Ok(_) => {}
            Err(StepError::NoFit) => unreachable!(),
            Err(StepError::Memory) => return Err(AllocError),
        }
        self.events.push(event)?;
        Ok(())
    }

    /// Does one act more.
    pub(crate) fn go(&mut self, question: &Question, steps: &Steps, doing: Doing) -> Mem<()>
        requires put { IsPut question.now }
        requires may { (act : AskedAct) × (message : Option ℕ)
            × (slice_get question.now.acts doing.act ≡ Some act)
            × BeginsWith (tables_of steps.now) doing.first self.old.machine message
            × IsReachedBefore (suc (length act.commands)) question.now self.old.machine }
        ensures { OnOk result ((act : AskedAct) → slice_get question.now.acts doing.act ≡ Some act
            → (message : Option ℕ) × BeginsWith (tables_of steps.now) doing.first self.old.machine message
            × Does self.old self.new (act_done self.old.machine act message)) }
    {
        let before = self.machine.messages().len();
        let act = &question.acts.as_slice()[doing.act as usize];
        let message = self.first(steps, doing.first);
        self.deliver(message)?;
        self.lines(before, &act.commands)
    }

    /// Delivers the message of this number, where there is one.
    fn deliver(&mut self, message: Option<u64>) -> Mem<()>
        requires { (question : AskedQuestion) × (spare : ℕ) × IsPut question
            × IsReachedBefore (suc spare) question self.old.machine }
        ensures { OnOk result (Does self.old self.new (first_done message)) }
    {
        match message {
            Some(message) => self.step(delivery(message)),
            None => Ok(()),
        }
    }

    /// Does the lines of an act that began after so many messages, up to the first that isn't done.
    fn lines(&mut self, before: usize, lines: &Commands) -> Mem<()>
        requires { (question : AskedQuestion) × IsPut question × AreFor question.sizes.nodes lines.now
            × IsReachedBefore (length lines.now) question self.old.machine }
        ensures { OnOk result (Does self.old self.new (lines_done before self.old.machine lines.now)) }
    {
        for command in lines.as_slice() {
            if !self.is_done(before, command) {
                return Ok(());
            }
            self.step(event_of(command)?)?;
        }
        Ok(())
    }

    fn is_done(&self, before: usize, command: &Command) -> bool
        ensures { result ≡ is_line_done before self.now.machine command.now }
    {
        match command {
            Command::DeliverLatest { from, to } => {
                was_sent(self.machine.messages(), before, *from, *to)
            }
            _ => true,
        }
    }

    /// The number of the earliest message with which an act may begin so.
    fn first(&self, steps: &Steps, first: First) -> Option<u64>
        requires { (message : Option ℕ) × BeginsWith (tables_of steps.now) first self.now.machine message }
        ensures { BeginsWith (tables_of steps.now) first self.now.machine result }
    {
        match first {
            First::Nothing => None,
            First::Live(number) => self.earliest(steps.message(number)),
            First::Dead => self.earliest_dead(),
        }
    }

    fn earliest(&self, wanted: &Message) -> Option<u64>
        ensures some { IfSome result (λ place. slice_get self.now.machine.messages place ≡ Some wanted.now) }
        ensures none { result ≡ None → In wanted.now self.now.machine.messages → ⊥ }
    {
        for (number, message) in self.machine.messages().iter().enumerate() {
            if same_message(message, wanted) {
                return Some(number as u64);
            }
        }
        None
    }

    fn earliest_dead(&self) -> Option<u64>
        ensures some { IfSome result (λ place. (sent : Sent)
            × (slice_get self.now.machine.messages place ≡ Some sent)
            × (is_dead_there self.now.machine sent ≡ true)) }
        ensures none { result ≡ None → has_dead self.now.machine ≡ false }
    {
        for (number, message) in self.machine.messages().iter().enumerate() {
            if is_dead_in(&self.machine, message) {
                return Some(number as u64);
            }
        }
        None
    }
}

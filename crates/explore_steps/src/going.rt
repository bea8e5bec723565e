// An act is done: its first message, and its lines.
ghost use Rattle.std.specs.Prelude.{◌≡◌, ◌<◌, ◌&&◌, ◌||◌, ℕ, false, true, length, List, IfOk, None, Some, Option, MatchOption, OnOk, IsTrue, ◌+◌, slice_get, if◌then◌else◌};
ghost use Rattle.repl_msg.specs.declared.message.Message.{Message as SentMessage};
ghost use Rattle.set_model.specs.declared.command.Command.{Command as ModelCommand};
ghost use Rattle.set_model.specs.declared.command.Command.TheVariants.{DeliverLatest};
ghost use Rattle.set_model.specs.World.{World, is_between, is_delivery, latest_between};
ghost use Rattle.explore_words.specs.declared.question.Act.{Act as AskedAct};
ghost use Rattle.explore_steps.specs.Causes.{Cause, taken};
ghost use Rattle.explore_steps.specs.Courses.{BeginsWith, Goes, GoesAlong, GoesBy, GoesFirst, GoesOver, MayBegin, MayHappen, StandsAt};
ghost use Rattle.explore_steps.specs.Keeping.{AreKept, IsGrown, IsLine};
ghost use Rattle.explore_steps.specs.Reaching.{IsOfSet, IsPut};
ghost use Rattle.explore_steps.specs.Stepping.{IsStepOf};
ghost use Rattle.explore_steps.specs.Tables.{AreNumbers, tables_of};

use crate::course::Course;
use crate::doing::{Doing, First};
use crate::steps::Steps;
use bson_doc::Mem;
use explore_laws::dead_messages_change_nothing;
use explore_tables::number_of;
use explore_words::Question;
use repl_msg::Message;
use safety_laws::numbers_stay_small;
use set_model::Command;

impl Course {
    /// Does an act.
    pub fn go(&mut self, steps: &mut Steps, question: &Question, doing: Doing) -> Mem<()>
        requires put { IsPut question.now }
        requires kept { AreKept question.now steps.old }
        requires may { (act : AskedAct) × (world : World) × (message : Option ℕ)
            × (slice_get question.now.acts doing.act ≡ Some act)
            × MayBegin 0 (tables_of steps.old) question.now self.old doing.first act world message }
        ensures grown { OnOk result (IsGrown question.now steps.old steps.new) }
        ensures notes { self.new.notes_dead ≡ self.old.notes_dead }
        ensures goes { OnOk result ((act : AskedAct) → slice_get question.now.acts doing.act ≡ Some act
            → Goes (tables_of steps.old)
            (tables_of steps.new) question.now self.old self.new doing.first act) }
    {
        self.go_first(steps, question, doing.first)?;
        self.go_lines(steps, question, doing.act as usize)
    }

    /// Delivers the message that an act begins with, where it begins with one. A dead one changes nothing.
    fn go_first(&mut self, steps: &mut Steps, question: &Question, first: First) -> Mem<()>
        requires put { IsPut question.now }
        requires kept { AreKept question.now steps.old }
        requires may { (world : World) × (message : Option ℕ)
            × StandsAt 1 (tables_of steps.old) question.now self.old world (length world.messages)
            × BeginsWith (tables_of steps.old) first world message }
        ensures grown { OnOk result (IsGrown question.now steps.old steps.new) }
        ensures notes { self.new.notes_dead ≡ self.old.notes_dead }
        ensures goes { OnOk result
            (GoesFirst (tables_of steps.old) (tables_of steps.new) question.now self.old self.new first) }
    {
        dead_messages_change_nothing();
        if let First::Live(message) = first {
            return self.deliver(steps, question, message);
        }
        Ok(())
    }

    /// Does the lines of an act, up to the first that isn't done.
    fn go_lines(&mut self, steps: &mut Steps, question: &Question, act: usize) -> Mem<()>
        requires put { IsPut question.now }
        requires kept { AreKept question.now steps.old }
        requires may { (of : AskedAct) × (world : World) × (before : ℕ)
            × (slice_get question.now.acts act ≡ Some of)
            × StandsAt (length of.commands) (tables_of steps.old) question.now self.old world before }
        ensures grown { OnOk result (IsGrown question.now steps.old steps.new) }
        ensures notes { self.new.notes_dead ≡ self.old.notes_dead }
        ensures goes { OnOk result ((of : AskedAct) → slice_get question.now.acts act ≡ Some of
            → GoesAlong (tables_of steps.old)
            (tables_of steps.new) question.now self.old self.new of.commands) }
    {
        let lines: &[Command] = question.acts.as_slice()[act].commands.as_slice();
        for line in 0..lines.len() {
            if !self.go_over(steps, question, act, line)? {
                return Ok(());
            }
        }
        Ok(())
    }

    /// Does a line of an act, and says whether it was done: there was a message to be delivered.
    fn go_over(
        &mut self,
        steps: &mut Steps,
        question: &Question,
        act: usize,
        line: usize,
    ) -> Mem<bool>
        requires put { IsPut question.now }
        requires kept { AreKept question.now steps.old }
        requires line { (command : ModelCommand) × IsLine question.now act line command }
        requires may { (world : World)
            × (before : ℕ) × StandsAt 1 (tables_of steps.old) question.now self.old world before }
        ensures grown { OnOk result (IsGrown question.now steps.old steps.new) }
        ensures notes { self.new.notes_dead ≡ self.old.notes_dead }
        ensures goes { IfOk result (λ done. (command : ModelCommand) → IsLine question.now act line command
            → GoesOver (tables_of steps.old)
            (tables_of steps.new) question.now self.old self.new done command) }
    {
        let command: &Command = &question.acts.as_slice()[act].commands.as_slice()[line];
        if let Command::DeliverLatest { from, to } = command {
            return self.deliver_latest(steps, question, *from, *to);
        }
        self.do_own(steps, question, act, line, command)?;
        Ok(true)
    }

    /// Delivers the newest message from one node to another that was sent in this act, and says whether there
    /// was one.
    fn deliver_latest(
        &mut self,
        steps: &mut Steps,
        question: &Question,
        from: u32,
        to: u32,
    ) -> Mem<bool>
        requires put { IsPut question.now }
        requires kept { AreKept question.now steps.old }
        requires of_set { IsOfSet question.now (DeliverLatest from to) }
        requires may { (world : World)
            × (before : ℕ) × StandsAt 1 (tables_of steps.old) question.now self.old world before }
        ensures grown { OnOk result (IsGrown question.now steps.old steps.new) }
        ensures notes { self.new.notes_dead ≡ self.old.notes_dead }
        ensures goes { IfOk result (λ done.
            GoesOver (tables_of steps.old) (tables_of steps.new) question.now self.old self.new done
            (DeliverLatest from to)) }
    {
        let Some(message) = self.latest(steps, from, to) else {
            return Ok(false);
        };
        self.deliver(steps, question, message)?;
        Ok(true)
    }

    /// Does a line of an act that is a node's own command.
    fn do_own(
        &mut self,
        steps: &mut Steps,
        question: &Question,
        act: usize,
        line: usize,
        command: &Command,
    ) -> Mem<()>
        requires put { IsPut question.now }
        requires kept { AreKept question.now steps.old }
        requires line { IsLine question.now act line command.now }
        requires own { is_delivery command.now ≡ false }
        requires may { (world : World)
            × (before : ℕ) × StandsAt 1 (tables_of steps.old) question.now self.old world before }
        ensures grown { OnOk result (IsGrown question.now steps.old steps.new) }
        ensures notes { self.new.notes_dead ≡ self.old.notes_dead }
        ensures goes { OnOk result
            (GoesOver (tables_of steps.old)
            (tables_of steps.new) question.now self.old self.new true command.now) }
    {
        let Some(node) = command.actor() else {
            return Ok(());
        };
        let node = node as usize;
        let cell = self.cells[node];
        let step = steps.of_line(question, act, number_of(line)?, command, cell)?;
        self.take(steps, question, node, step)
    }

    /// The newest message from one node to another that was sent in this act.
    fn latest(&self, steps: &Steps, from: u32, to: u32) -> Option<u32>
        requires { (messages : List SentMessage)
            × AreNumbers (tables_of steps.now) self.now.sent.items messages }
        ensures { (messages : List SentMessage)
            → AreNumbers (tables_of steps.now) self.now.sent.items messages
            → MatchOption result (latest_between messages from to ≡ None)
            (λ number. (message : SentMessage) × (slice_get steps.now.messages number ≡ Some message)
            × (latest_between messages from to ≡ Some message)) }
    {
        for place in (0..self.sent.len()).rev() {
            let number = self.sent[place];
            if is_between(steps.message(number), from, to) {
                return Some(number);
            }
        }
        None
    }

    /// Delivers a message that was sent. One that is dead changes nothing, and meets no want.
    fn deliver(&mut self, steps: &mut Steps, question: &Question, message: u32) -> Mem<()>
        requires put { IsPut question.now }
        requires kept { AreKept question.now steps.old }
        requires may { (sent : SentMessage) × (world : World) × (before : ℕ) × (command : ModelCommand)
            × (slice_get steps.old.messages message ≡ Some sent)
            × MayHappen 0 (tables_of steps.old) question.now self.old
            (taken sent) sent.to world before command }
        ensures grown { OnOk result (IsGrown question.now steps.old steps.new) }
        ensures notes { self.new.notes_dead ≡ self.old.notes_dead }
        ensures goes { OnOk result ((sent : SentMessage) → slice_get steps.old.messages message ≡ Some sent
            → GoesBy (tables_of steps.old) (tables_of steps.new) question.now self.old self.new
            (taken sent) sent.to) }
    {
        numbers_stay_small();
        dead_messages_change_nothing();
        let to = steps.message(message).to as usize;
        let cell = self.cells[to];
        if steps.is_dead(cell, message) {
            return Ok(());
        }
        let step = steps.of_message(question, message, cell)?;
        self.take(steps, question, to, step)
    }

    /// Takes a step at a node.
    fn take(&mut self, steps: &mut Steps, question: &Question, node: usize, step: u32) -> Mem<()>
        requires put { IsPut question.now }
        requires kept { AreKept question.now steps.old }
        requires may { (cause : Cause) × (cell : ℕ) × (world : World) × (before : ℕ)
            × (command : ModelCommand)
            × (slice_get self.old.cells.items node ≡ Some cell)
            × IsStepOf (tables_of steps.old) question.now cause cell step
            × MayHappen 0 (tables_of steps.old) question.now self.old cause node world before command }
        ensures grown { OnOk result (IsGrown question.now steps.old steps.new) }
        ensures notes { self.new.notes_dead ≡ self.old.notes_dead }
        ensures goes { OnOk result
            ((cause : Cause) (cell : ℕ) → slice_get self.old.cells.items node ≡ Some cell
            → IsStepOf (tables_of steps.old) question.now cause cell step
            → GoesBy (tables_of steps.old) (tables_of steps.new) question.now self.old self.new cause node) }
    {
        numbers_stay_small();
        let step = steps.step(step);
        let meets = steps.meets(step.deed, self.met);
        self.cells[node] = step.cell;
        self.dead = self.with_death(step.kills);
        let before = self.sent.len();
        self.sent.extend_from_slice(steps.sent(step.deed))?;
        self.add_from(steps, before)?;
        self.met = self.met_more(meets);
        // What was to be seen before was met, and is no other where no node is.
        if meets || step.moves {
            self.see(steps, question)?;
        }
        Ok(())
    }

    /// Whether it is noted that a message is dead, once one died or none.
    fn with_death(&self, died: bool) -> bool
        ensures { result ≡ (self.now.dead || (self.now.notes_dead && died)) }
    {
        self.dead || (self.notes_dead && died)
    }

    /// How many wants are met, once one more was or none.
    fn met_more(&self, meets: bool) -> u32
        requires { IsTrue meets → self.now.met < 100 }
        ensures { result ≡ (if meets then self.now.met + 1 else self.now.met) }
    {
        if meets { self.met + 1 } else { self.met }
    }
}

fn is_between(message: &Message, from: u32, to: u32) -> bool
    ensures { result ≡ is_between from to message.now }
{
    message.from == from && message.to == to
}

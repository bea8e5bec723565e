// A set that is played.
ghost use Rattle.std.specs.Prelude.{◌≡◌, ◌≤◌, ◌++◌, ℕ, List, None, Ok, true, false, IfOk, IfErr, IsErrOf, OnErr, OnOk, string_bytes};
ghost use Rattle.std.specs.Str.Lines.{lines};
ghost use Rattle.fault_script.specs.Lines.{MOST_LINES as MOST};
ghost use Rattle.run_checker.specs.Checking.{set_of};
ghost use Rattle.set_model.specs.Limits.{is_for};
ghost use Rattle.checker_machine.specs.Plain.{is_reading};
ghost use Rattle.set_model.specs.declared.command.Command.{Command};
ghost use Rattle.play.specs.Lines.{Fails};
ghost use Rattle.play.specs.Play.{Plays, PlaysAll, StopsIn, asked_of, can_be_opened, event_at, opened, reply_to, run_of, said_to, script_of, sent_from, trace_of, with_event, with_line};
ghost use Rattle.play.specs.declared.play.OpenError.TheVariants as errors;

use crate::history::History;
use crate::lines::{MOST_LINES, next_line, recall_sound_write};
use crate::machine::{begun, done_again, step, write_trace};
use crate::reading::{is_reading, line_said, said};
use crate::rule::{LineRule, PlayError};
use crate::script::{Script, keep};
use crate::telling::{write_messages, write_opening};
use bson_doc::Mem;
use checker_machine::Machine;
use run_checker::Sizes;
use safety_laws::numbers_stay_small;
use set_model::{Command, Event};
use std::alloc::{AllocError, Global};
use std::marker::Model;

/// Why a set isn't opened.
#[derive(Clone, Copy, Debug, PartialEq, Eq)]
pub enum OpenError {
    /// There is no set of these sizes, or no script has so many lines.
    BadSizes,
    /// Out of memory.
    Memory,
}

impl From<AllocError> for OpenError {
    ghost use Rattle.play.specs.declared.play.OpenError.TheVariants.{Memory};

    ghost from_gives = { λ _ error. error ≡ Memory };

    fn from(_: AllocError) -> Self {
        OpenError::Memory
    }
}

/// A replica set that is played line by line. Contracts see its sizes, its lines with the numbers of the
/// first and the next one, and the events so far: these say what it has come to.
#[derive(Drop)]
pub struct Play {
    alloc: Global,
    sizes: Sizes,
    first: u32,
    line: u32,
    script: Script,
    history: History,
    /// The set as it stands. There is none where memory ran out in a step: the events are then done again.
    machine: Option<Machine>,
    /// The reply of the last step, whose memory is used again.
    reply: String,
}

impl Model for Play {
    ghost use Rattle.std.specs.Prelude.{IfSome, ◌≡◌};
    ghost use Rattle.std.specs.Coded.{codes};
    ghost use Rattle.run_checker.specs.Checking.{set_of};
    ghost use Rattle.set_model.specs.Run.{run};
    ghost use Rattle.set_model.specs.contracts.command.Event as event;
    ghost use Rattle.play.specs.Play.{IsPlayed, Played};

    ghost Value = { Played };

    ghost coded = { Prim.hlevel (codes, event.the_row.coded) };

    ghost view = { λ p. record {
      sizes = set_of p.sizes;
      first = p.first;
      line = p.line;
      lines = p.script;
      events = p.history;
    } };

    ghost invariant = { λ p. IsPlayed (record {
      sizes = set_of p.sizes;
      first = p.first;
      line = p.line;
      lines = p.script;
      events = p.history;
    }) × IfSome p.machine (λ machine. machine ≡ (run (set_of p.sizes) p.history).world) };
}

/// Whether a `set` line can name these sizes, and be the line of this number.
fn can_be_opened(sizes: Sizes, line: u32) -> bool
    ensures { result ≡ can_be_opened sizes line }
{
    let (nodes, voters, members) = sizes;
    1 <= voters
        && voters <= 7
        && voters <= members
        && members <= nodes
        && nodes <= 50
        && 1 <= line
        && line <= MOST_LINES
}

impl Play {
    /// A set of these sizes, as the `set` line of this number opens it.
    ///
    /// # Errors
    /// `BadSizes` where no `set` line names these sizes, or can be the line of that number.
    pub fn open(alloc: Global, sizes: Sizes, line: u32) -> Result<Play, OpenError>
        ensures ok { IfOk result (λ play. play ≡ opened (set_of sizes) line) }
        ensures fits { OnOk result (can_be_opened sizes line ≡ true) }
        ensures bad { IsErrOf result errors.BadSizes → can_be_opened sizes line ≡ false }
    {
        if !can_be_opened(sizes, line) {
            return Err(OpenError::BadSizes);
        }
        Ok(Play {
            alloc,
            sizes,
            first: line,
            line: line + 1,
            script: Script::new(alloc),
            history: History::new(alloc),
            machine: Some(begun(alloc, sizes)?),
            reply: String::new(alloc),
        })
    }

    /// Plays one line, without a line feed at its end, and appends its reply: nothing, where the line is
    /// empty or a comment.
    ///
    /// # Errors
    /// Each leaves the set and `out` as they were.
    #[tactic(auto, using(crate::proofs::LineLemmas::said_fails))]
    pub fn step(&mut self, line: &[u8], out: &mut String) -> Result<(), PlayError>
        ensures ok { OnOk result ((told : List ℕ) × Plays self.old line.now self.new told
            × (string_bytes out.new ≡ string_bytes out.old ++ told)) }
        ensures err { IfErr result (λ why. Fails why (said_to self.old line.now)) }
        ensures set { OnErr result (self.new ≡ self.old) }
        ensures out { OnErr result (string_bytes out.new ≡ string_bytes out.old) }
    {
        let text = line_said(self.line, line)?;
        match said(self.alloc, self.sizes.0, self.line, line)? {
            Some(command) => Ok(self.play(text, command, out)?),
            None => Ok(self.pass(text)?),
        }
    }

    /// Plays lines, each with a line feed at its end, up to the first that can't be played, and appends
    /// their replies. The last line may go without its line feed.
    ///
    /// # Errors
    /// The error is that of the first line that isn't played. Those before it are.
    pub fn steps(&mut self, text: &[u8], out: &mut String) -> Result<(), PlayError>
        ensures ok { OnOk result ((told : List ℕ) × PlaysAll self.old (lines text.now) self.new told
            × (string_bytes out.new ≡ string_bytes out.old ++ told)) }
        ensures err { IfErr result (λ why. (told : List ℕ)
            × StopsIn self.old (lines text.now) why self.new told
            × (string_bytes out.new ≡ string_bytes out.old ++ told)) }
    {
        let mut rest = text;
        while !rest.is_empty() {
            let (line, after) = next_line(rest);
            self.step(line, out)?;
            rest = after;
        }
        Ok(())
    }

    /// What `step` would append for a line that only looks at something. Nothing changes but `out`.
    ///
    /// # Errors
    /// `NoQuestion` where the line does more than that, or is empty or a comment.
    pub fn ask(&mut self, line: &[u8], out: &mut String) -> Result<(), PlayError>
        ensures ok { OnOk result ((command : Command)
            × (asked_of self.old line.now ≡ Ok command)
            × (string_bytes out.new ≡ string_bytes out.old ++ reply_to self.old command)) }
        ensures err { IfErr result (λ why. Fails why (asked_of self.old line.now)) }
        ensures set { self.new ≡ self.old }
        ensures out { OnErr result (string_bytes out.new ≡ string_bytes out.old) }
    {
        let event = self.asked(line)?;
        let shown = self.show(&event, out);
        drop(event);
        Ok(shown?)
    }

    /// A set that has come just as far. Neither sees what is done with the other.
    pub fn copy(&self) -> Mem<Play>
        ensures { IfOk result (λ copy. copy ≡ self.now) }
    {
        Ok(Play {
            alloc: self.alloc,
            sizes: self.sizes,
            first: self.first,
            line: self.line,
            script: self.script.copy()?,
            history: self.history.copy()?,
            machine: copied(&self.machine)?,
            reply: String::new(self.alloc),
        })
    }

    /// The number of the next line.
    pub fn line(&self) -> u32
        ensures { result ≡ self.now.line }
    {
        self.line
    }

    /// Appends the trace of the run so far, for which all events are done again. After out of memory a part
    /// may be appended.
    pub fn trace(&self, out: &mut String) -> Mem<()>
        ensures { OnOk result (string_bytes out.new ≡ string_bytes out.old ++ trace_of self.now) }
    {
        write_trace(self.alloc, self.sizes, &self.history, out)
    }

    /// Appends the script so far: empty lines before the `set` line, that line, and those that were played.
    /// After out of memory a part may be appended.
    pub fn script(&self, out: &mut String) -> Mem<()>
        ensures { OnOk result (string_bytes out.new ≡ string_bytes out.old ++ script_of self.now) }
    {
        write_opening(self.sizes, self.first, out)?;
        self.script.write(out)
    }

    /// Appends the messages that were sent, from that of this number on, a line each. After out of memory a
    /// part may be appended.
    pub fn messages(&mut self, first: u64, out: &mut String) -> Mem<()>
        ensures ok { OnOk result
            (string_bytes out.new ≡ string_bytes out.old ++ sent_from first self.old) }
        ensures set { self.new ≡ self.old }
    {
        let machine = self.take_machine()?;
        let written = write_messages(machine.messages(), first, out);
        self.machine = Some(machine);
        written
    }

    /// Passes over a line.
    fn pass(&mut self, line: &str) -> Mem<()>
        requires { self.old.line ≤ MOST }
        ensures ok { OnOk result (self.new ≡ with_line self.old line.now None) }
        ensures err { OnErr result (self.new ≡ self.old) }
    {
        self.script.push(line)?;
        self.line += 1;
        Ok(())
    }

    /// Plays the command of a line, and appends its reply.
    fn play(&mut self, line: &str, command: Command, out: &mut String) -> Mem<()>
        requires line { self.old.line ≤ MOST }
        requires command { is_for self.old.sizes.nodes command ≡ true }
        ensures ok { OnOk result (self.new ≡ with_event self.old line.now command) }
        ensures told { OnOk result
            (string_bytes out.new ≡ string_bytes out.old ++ reply_to self.old command) }
        ensures set { OnErr result (self.new ≡ self.old) }
        ensures out { OnErr result (string_bytes out.new ≡ string_bytes out.old) }
    {
        let mut machine = self.take_machine()?;
        let event = event_at(self.line, command);
        recall_sound_write(&event.command);
        numbers_stay_small();
        step(&mut machine, &event, &mut self.reply)?;
        keep(&mut self.script, &mut self.history, line, event)?;
        if out.push_str(&self.reply).is_err() {
            self.script.pop();
            self.history.pop();
            return Err(AllocError);
        }
        self.line += 1;
        self.machine = Some(machine);
        Ok(())
    }

    /// The event of a line that only looks at something.
    #[tactic(auto, using(crate::proofs::LineLemmas::fails_on))]
    fn asked(&self, line: &[u8]) -> Result<Event, PlayError>
        ensures asked { IfOk result (λ event. asked_of self.now line.now ≡ Ok event.command) }
        ensures event { IfOk result (λ event. event ≡ event_at self.now.line event.command) }
        ensures command { IfOk result (λ event. is_for self.now.sizes.nodes event.command ≡ true) }
        ensures reading { IfOk result (λ event. is_reading event.command ≡ true) }
        ensures err { IfErr result (λ why. Fails why (asked_of self.now line.now)) }
    {
        let Some(command) = said(self.alloc, self.sizes.0, self.line, line)? else {
            return Err(PlayError::Rule(LineRule::NoQuestion));
        };
        if !is_reading(&command) {
            return Err(PlayError::Rule(LineRule::NoQuestion));
        }
        Ok(event_at(self.line, command))
    }

    /// Appends the reply to an event that only looks at something.
    fn show(&mut self, event: &Event, out: &mut String) -> Mem<()>
        requires event { event.now ≡ event_at self.old.line event.now.command }
        requires command { is_for self.old.sizes.nodes event.now.command ≡ true }
        requires reading { is_reading event.now.command ≡ true }
        ensures ok { OnOk result
            (string_bytes out.new ≡ string_bytes out.old ++ reply_to self.old event.now.command) }
        ensures set { self.new ≡ self.old }
        ensures out { OnErr result (string_bytes out.new ≡ string_bytes out.old) }
    {
        let mut machine = self.take_machine()?;
        recall_sound_write(&event.command);
        numbers_stay_small();
        step(&mut machine, event, &mut self.reply)?;
        self.machine = Some(machine);
        out.push_str(&self.reply)?;
        Ok(())
    }

    /// The set as it stands, taken out.
    fn take_machine(&mut self) -> Mem<Machine>
        ensures machine { IfOk result (λ machine. machine ≡ (run_of self.old).world) }
        ensures set { self.new ≡ self.old }
    {
        match self.machine.take() {
            Some(machine) => Ok(machine),
            None => done_again(self.alloc, self.sizes, &self.history),
        }
    }
}

/// The same set once more, where there is one.
fn copied(machine: &Option<Machine>) -> Mem<Option<Machine>>
    ensures { IfOk result (λ copy. copy ≡ machine.now) }
{
    match machine {
        Some(machine) => Ok(Some(machine.copy()?)),
        None => Ok(None),
    }
}

/// The event of a command, where no disk fails.
fn event_at(line: u32, command: Command) -> Event
    ensures { result ≡ event_at line command }
{
    Event {
        command,
        line,
        failed: None,
        kept: false,
    }
}

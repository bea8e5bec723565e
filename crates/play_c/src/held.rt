// What a handle leads to.
ghost use Rattle.std.specs.Prelude.{◌≡◌, ◌++◌, IfOk, MatchResult, OnOk, codes, string_bytes};
ghost use Rattle.std.specs.Fmt.{decimal};
ghost use Rattle.play.specs.Play.{script_of, sent_from, trace_of};
ghost use Rattle.play_c.specs.Calls.{Asks, Does, PlaysLines, PlaysOne, Shows, Tells, fresh, next_line};
ghost use Rattle.play_c.specs.declared.calls.Answer.TheVariants.{BadLine, Done, Memory};

use crate::calls::{Answer, Call};
use play::{Mem, Play, PlayError, write_bad_line};
use std::alloc::Global;
use std::marker::Model;
use transcript::write_number;

/// A set, with the text of the last call.
#[derive(Drop)]
pub(crate) struct Held {
    play: Play,
    text: String,
}

impl Model for Held {
    ghost use Rattle.std.specs.Prelude.{string_bytes};
    ghost use Rattle.std.specs.Coded.{codes};
    ghost use Rattle.play.specs.contracts.play.Play as played;
    ghost use Rattle.play_c.specs.Holding.{Holding};

    ghost Value = { Holding };

    ghost coded = { Prim.hlevel (codes, played.the_row.coded) };

    ghost view = { λ h. record { play = h.play; text = string_bytes h.text } };
}

impl Held {
    /// A set before its first call.
    pub(crate) fn new(alloc: Global, play: Play) -> Held
        ensures { result ≡ fresh play }
    {
        Held {
            play,
            text: String::new(alloc),
        }
    }

    /// The set once more, before its first call.
    pub(crate) fn copy(&self, alloc: Global) -> Mem<Held>
        ensures { IfOk result (λ copy. copy ≡ fresh self.now.play) }
    {
        Ok(Held::new(alloc, self.play.copy()?))
    }

    /// The text of the last call.
    pub(crate) fn text(&self) -> &[u8]
        ensures { result.now ≡ self.now.text }
    {
        self.text.as_bytes()
    }

    /// Does a call.
    pub(crate) fn call(&mut self, call: Option<Call>, number: u64, line: &[u8]) -> Answer
        ensures { Does call number line.now self.old self.new result }
    {
        match call {
            Some(Call::Step) => self.step(line),
            Some(Call::Steps) => self.steps(line),
            Some(Call::Ask) => self.ask(line),
            Some(Call::Script) => self.script(),
            Some(Call::Trace) => self.trace(),
            Some(Call::Messages) => self.messages(number),
            Some(Call::Line) => self.line(),
            Some(Call::Text) => Answer::Done,
            None => {
                self.text.clear();
                Answer::BadCall
            }
        }
    }

    fn step(&mut self, line: &[u8]) -> Answer
        ensures { PlaysOne line.now self.old.play self.new result }
    {
        self.text.clear();
        let done = self.play.step(line, &mut self.text);
        self.told(done)
    }

    fn steps(&mut self, text: &[u8]) -> Answer
        ensures { PlaysLines text.now self.old.play self.new result }
    {
        self.text.clear();
        let done = self.play.steps(text, &mut self.text);
        self.told(done)
    }

    fn ask(&mut self, line: &[u8]) -> Answer
        ensures { Asks line.now self.old.play self.new result }
    {
        self.text.clear();
        let done = self.play.ask(line, &mut self.text);
        self.told(done)
    }

    fn script(&mut self) -> Answer
        ensures { Shows (script_of self.old.play) self.old.play self.new result }
    {
        self.text.clear();
        shown(self.play.script(&mut self.text))
    }

    fn trace(&mut self) -> Answer
        ensures { Shows (trace_of self.old.play) self.old.play self.new result }
    {
        self.text.clear();
        shown(self.play.trace(&mut self.text))
    }

    fn messages(&mut self, first: u64) -> Answer
        ensures { Shows (sent_from first self.old.play) self.old.play self.new result }
    {
        self.text.clear();
        shown(self.play.messages(first, &mut self.text))
    }

    fn line(&mut self) -> Answer
        ensures { Shows (next_line self.old.play) self.old.play self.new result }
    {
        self.text.clear();
        shown(write_line(self.play.line(), &mut self.text))
    }

    /// What is answered once lines were played, after whose replies the rule of a bad line is named.
    fn told(&mut self, done: Result<(), PlayError>) -> Answer
        ensures { Tells done self.old self.new result }
    {
        match done {
            Ok(()) => Answer::Done,
            Err(PlayError::Memory) => Answer::Memory,
            Err(PlayError::Rule(rule)) => {
                shown_bad(write_bad_line(self.play.line(), rule, &mut self.text))
            }
        }
    }
}

fn shown(done: Mem<()>) -> Answer
    ensures { MatchResult done (λ _. result ≡ Done) (λ _. result ≡ Memory) }
{
    match done {
        Ok(()) => Answer::Done,
        Err(_) => Answer::Memory,
    }
}

fn shown_bad(done: Mem<()>) -> Answer
    ensures { MatchResult done (λ _. result ≡ BadLine) (λ _. result ≡ Memory) }
{
    match done {
        Ok(()) => Answer::BadLine,
        Err(_) => Answer::Memory,
    }
}

fn write_line(number: u32, out: &mut String) -> Mem<()>
    ensures { OnOk result (string_bytes out.new ≡ string_bytes out.old ++ decimal number ++ codes "\n") }
{
    write_number(u64::from(number), out)?;
    out.push_str("\n")
}

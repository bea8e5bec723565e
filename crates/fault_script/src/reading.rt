// What was read of a script so far, after some of its lines.
ghost use Rattle.std.specs.Prelude.{◌≡◌};
ghost use Rattle.std.specs.Option.{option_copied};
ghost use Rattle.script_words.specs.Gives.{Reads, Gives};
ghost use Rattle.script_words.specs.Commands.{words_at};
ghost use Rattle.fault_script.specs.Script.{start, add_command, begin_block, begin_thread, end_block, with_command, with_set, with_text, with_line, whole};

use crate::fault::ScriptFault;
use crate::lines::{is_passed_over, text_of};
use crate::lists::Threads;
use crate::script::{Part, Parts, Script};
use script_words::{
    Keyword, Left, LineError, ScriptRule, SetLine, Verb, command, keyword, set_line,
};
use std::alloc::Global;

/// How many threads a block may have.
const MAX_THREADS: usize = 16;

/// What was read of a script so far, after some of its lines.
#[derive(Drop)]
pub struct Reading {
    /// The sizes of the set, after the `set` line.
    set: Option<SetLine>,
    parts: Parts,
    /// The threads of the open block, if there is one.
    block: Option<Threads>,
}

impl Reading {
    /// Nothing is read yet.
    pub fn new(alloc: Global) -> Self
        ensures { result ≡ start }
    {
        Reading {
            set: None,
            parts: Parts::new(alloc),
            block: None,
        }
    }

    /// Adds a line, which has this number.
    #[tactic(auto, unfolding(crate::specs::Script::with_line))]
    pub fn add_line(&mut self, alloc: Global, number: u32, line: &[u8]) -> Result<(), LineError>
        ensures { Gives (λ _. self.new) result (with_line number self.old line.now) }
    {
        let text = text_of(number, line)?;
        if is_passed_over(text) {
            return Ok(());
        }
        self.add_text(alloc, number, text)
    }

    fn add_text(&mut self, alloc: Global, number: u32, text: &str) -> Result<(), LineError>
        ensures { Gives (λ _. self.new) result (with_text number self.old text.now self.old.set) }
    {
        match self.set {
            Some(set) => self.add_command(alloc, set.nodes, number, text),
            None => self.add_set(text),
        }
    }

    /// The first command is `set`.
    fn add_set(&mut self, text: &str) -> Result<(), LineError>
        ensures { Gives (λ _. self.new) result (with_set self.old text.now) }
    {
        self.set = Some(set_line(text)?);
        Ok(())
    }

    /// A later command, in a set of this size.
    #[tactic(auto, unfolding(crate::specs::Script::with_command))]
    fn add_command(
        &mut self,
        alloc: Global,
        nodes: u32,
        number: u32,
        text: &str,
    ) -> Result<(), LineError>
        ensures { Gives (λ _. self.new) result (with_command nodes number self.old text.now) }
    {
        let (keyword, left) = keyword(text)?;
        match keyword {
            Keyword::Par => Ok(self.begin_block(alloc)?),
            Keyword::Thread => self.begin_thread(alloc),
            Keyword::End => self.end_block(),
            Keyword::Command(verb) => self.add_words(alloc, nodes, number, verb, left),
        }
    }

    fn begin_block(&mut self, alloc: Global) -> Result<(), ScriptRule>
        ensures { Reads (λ _. self.new) result (begin_block self.old self.old.block) }
    {
        if self.block.is_some() {
            return Err(ScriptRule::NestedPar);
        }
        self.block = Some(Threads::new(alloc));
        Ok(())
    }

    fn begin_thread(&mut self, alloc: Global) -> Result<(), LineError>
        ensures { Gives (λ _. self.new) result (begin_thread self.old self.old.block) }
    {
        let Some(threads) = &mut self.block else {
            return Err(LineError::Rule(ScriptRule::StrayLine));
        };
        if threads.as_slice().len() >= MAX_THREADS {
            return Err(LineError::Rule(ScriptRule::TooManyThreads));
        }
        threads.begin_thread(alloc)?;
        Ok(())
    }

    fn end_block(&mut self) -> Result<(), LineError>
        ensures { Gives (λ _. self.new) result (end_block self.old self.old.block) }
    {
        let Some(mut threads) = self.block.take() else {
            return Err(LineError::Rule(ScriptRule::StrayLine));
        };
        threads.shrink_last()?;
        self.parts.push(Part::Par(threads))?;
        Ok(())
    }

    /// A command is a part of its own, or belongs to the last thread of a block.
    fn add_words(
        &mut self,
        alloc: Global,
        nodes: u32,
        number: u32,
        verb: Verb,
        left: Left<'_>,
    ) -> Result<(), LineError>
        ensures { Gives (λ _. self.new) result
            (add_command number self.old self.old.block (words_at nodes verb (option_copied left.entry))) }
    {
        let Some(threads) = &mut self.block else {
            let command = command(alloc, nodes, verb, left)?;
            self.parts.push(Part::Line(number, command))?;
            return Ok(());
        };
        if threads.as_slice().is_empty() {
            return Err(LineError::Rule(ScriptRule::StrayLine));
        }
        let command = command(alloc, nodes, verb, left)?;
        threads.push((number, command))?;
        Ok(())
    }

    /// The script after all its lines are added; `number` is one more than the last one's. It is a fault at
    /// `number` if there was no `set` line, or a block is still open.
    pub fn finish(self, number: u32) -> Result<Script, ScriptFault>
        ensures { result ≡ whole number self self.set self.block }
    {
        let Some(set) = self.set else {
            return Err(ScriptFault {
                line: number,
                rule: ScriptRule::NoSetLine,
            });
        };
        if self.block.is_some() {
            return Err(ScriptFault {
                line: number,
                rule: ScriptRule::OpenPar,
            });
        }
        Ok(Script {
            nodes: set.nodes,
            voters: set.voters,
            members: set.members,
            parts: self.parts.shrunk(),
        })
    }
}

// Lists of commands, each with the number of its line. Contracts see them as lists.
ghost use Rattle.std.specs.Prelude.{◌≡◌, [], ◌∷◌, ◌++◌, IfOk, OnOk};
ghost use Rattle.fault_script.specs.Script.{in_last};

use bson_doc::Mem;
use set_model::Command;
use std::alloc::Global;
use std::marker::Model;

/// The commands of one thread, in order.
#[derive(Drop)]
pub struct Lines {
    lines: Vec<(u32, Command)>,
}

impl Model for Lines {
    ghost use Rattle.std.specs.Prelude.{List, ℕ};
    ghost use Rattle.std.specs.Coded.{coded×, coded_list, coded_ℕ};
    ghost use Rattle.set_model.specs.declared.command.Command.{Command};
    ghost use Rattle.set_model.specs.contracts.command.Command.{the_row};

    ghost Value = { List (ℕ × Command) };

    ghost coded = { coded_list (coded× coded_ℕ the_row.coded) };

    ghost view = { λ l. l.lines.items };
}

impl Lines {
    fn new(alloc: Global) -> Self
        ensures { result ≡ [] }
    {
        Lines {
            lines: Vec::new(alloc),
        }
    }

    /// The lines in their order, each with its number in the script.
    pub fn as_slice(&self) -> &[(u32, Command)]
        ensures { result.now ≡ self.now }
    {
        &self.lines
    }

    /// The lines, each with its number, to be taken out one by one.
    pub fn into_vec(self) -> Vec<(u32, Command)>
        ensures { result.items ≡ self }
    {
        self.lines
    }

    fn push(&mut self, line: (u32, Command)) -> Mem<()>
        ensures { OnOk result (self.new ≡ self.old ++ line ∷ []) }
    {
        self.lines.push(line)?;
        Ok(())
    }

    /// A copy of the lines.
    pub fn copy(&self) -> Mem<Lines>
        ensures { IfOk result (λ l. l ≡ self.now) }
    {
        let mut copies = Lines::new(*self.lines.allocator());
        for (number, command) in self.as_slice() {
            copies.push((*number, command.copy()?))?;
        }
        Ok(copies)
    }

    /// The same list, in no more memory than it needs.
    fn shrunk(mut self) -> Self
        ensures { result ≡ self }
    {
        self.lines.shrink_to_fit();
        self
    }
}

/// The threads of a block.
#[derive(Drop)]
pub struct Threads {
    threads: Vec<Lines>,
}

impl Model for Threads {
    ghost use Rattle.std.specs.Prelude.{List, ℕ};
    ghost use Rattle.std.specs.Coded.{coded×, coded_list, coded_ℕ};
    ghost use Rattle.set_model.specs.declared.command.Command.{Command};
    ghost use Rattle.set_model.specs.contracts.command.Command.{the_row};

    ghost Value = { List (List (ℕ × Command)) };

    ghost coded = { coded_list (coded_list (coded× coded_ℕ the_row.coded)) };

    ghost view = { λ t. t.threads.items };
}

impl Threads {
    pub(crate) fn new(alloc: Global) -> Self
        ensures { result ≡ [] }
    {
        Threads {
            threads: Vec::new(alloc),
        }
    }

    /// The lines of each thread.
    pub fn as_slice(&self) -> &[Lines]
        ensures { result.now ≡ self.now }
    {
        &self.threads
    }

    /// The lists, to be taken out one by one.
    pub fn into_vec(self) -> Vec<Lines>
        ensures { result.items ≡ self }
    {
        self.threads
    }

    /// A copy of the threads.
    pub fn copy(&self) -> Mem<Threads>
        ensures { IfOk result (λ t. t ≡ self.now) }
    {
        let mut copies = Vec::with_capacity(*self.threads.allocator(), self.threads.len())?;
        for lines in self.as_slice() {
            copies.push(lines.copy()?)?;
        }
        Ok(Threads { threads: copies })
    }

    /// Begins one more thread. The one before it gives back the memory that it doesn't need.
    pub(crate) fn begin_thread(&mut self, alloc: Global) -> Mem<()>
        ensures { OnOk result (self.new ≡ self.old ++ [] ∷ []) }
    {
        self.shrink_last()?;
        self.threads.push(Lines::new(alloc))?;
        Ok(())
    }

    /// Adds a command to the last thread. Without a thread it adds nothing.
    pub(crate) fn push(&mut self, line: (u32, Command)) -> Mem<()>
        ensures { OnOk result (self.new ≡ in_last self.old line) }
    {
        let Some(mut last) = self.threads.pop() else {
            return Ok(());
        };
        last.push(line)?;
        self.threads.push(last)?;
        Ok(())
    }

    /// Gives back the memory that the last thread doesn't need.
    pub(crate) fn shrink_last(&mut self) -> Mem<()>
        ensures { OnOk result (self.new ≡ self.old) }
    {
        let Some(last) = self.threads.pop() else {
            return Ok(());
        };
        self.threads.push(last.shrunk())?;
        Ok(())
    }
}

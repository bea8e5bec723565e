// The lines that were played, which copies of a set share.
ghost use Rattle.std.specs.Prelude.{◌≡◌, ◌++◌, ◌∷◌, [], ℕ, List, OnErr, OnOk, IfOk, string_bytes};
ghost use Rattle.play.specs.Script.{ended, lines_text};

use crate::history::History;
use bson_doc::Mem;
use set_model::Event;
use std::alloc::{AllocError, Global};
use std::marker::Model;
use std::sync::Arc;

/// The lines so far without their line feeds, oldest first. Copies share them.
#[derive(Drop)]
pub(crate) struct Script {
    lines: Vec<Arc<String, Global>>,
}

impl Model for Script {
    ghost use Rattle.std.specs.Prelude.{List, ℕ};
    ghost use Rattle.std.specs.Coded.{coded_list, coded_ℕ};
    ghost use Rattle.play.specs.Script.{texts_of};

    ghost Value = { List (List ℕ) };

    ghost coded = { coded_list (coded_list coded_ℕ) };

    ghost view = { λ s. texts_of s.lines.items };
}

impl Script {
    pub(crate) fn new(alloc: Global) -> Self
        ensures { result ≡ [] }
    {
        Script {
            lines: Vec::new(alloc),
        }
    }

    /// Adds a line. Out of memory leaves the lines as they were.
    pub(crate) fn push(&mut self, line: &str) -> Mem<()>
        ensures ok { OnOk result (self.new ≡ self.old ++ line.now ∷ []) }
        ensures err { OnErr result (self.new ≡ self.old) }
    {
        let alloc = *self.lines.allocator();
        let line = Arc::new(alloc, owned(alloc, line)?)?;
        self.lines.push(line)?;
        Ok(())
    }

    /// Takes the last line out again.
    pub(crate) fn pop(&mut self)
        ensures { (lines : List (List ℕ)) (line : List ℕ) → self.old ≡ lines ++ line ∷ []
            → self.new ≡ lines }
    {
        let _ = self.lines.pop();
    }

    /// The same lines for another set.
    pub(crate) fn copy(&self) -> Mem<Script>
        ensures { IfOk result (λ copy. copy ≡ self.now) }
    {
        let mut lines = Vec::with_capacity(*self.lines.allocator(), self.lines.len())?;
        for line in &self.lines {
            lines.push(Arc::try_clone(line)?)?;
        }
        Ok(Script { lines })
    }

    /// Appends the lines, each with a line feed.
    pub(crate) fn write(&self, out: &mut String) -> Mem<()>
        ensures { OnOk result (string_bytes out.new ≡ string_bytes out.old ++ lines_text self.now) }
    {
        for line in &self.lines {
            write_line(line.as_ref().as_str(), out)?;
        }
        Ok(())
    }
}

/// Keeps a line with its event. Out of memory keeps neither.
pub(crate) fn keep(script: &mut Script, history: &mut History, line: &str, event: Event) -> Mem<()>
    ensures line { OnOk result (script.new ≡ script.old ++ line.now ∷ []) }
    ensures event { OnOk result (history.new ≡ history.old ++ event ∷ []) }
    ensures no_line { OnErr result (script.new ≡ script.old) }
    ensures no_event { OnErr result (history.new ≡ history.old) }
{
    script.push(line)?;
    if history.push(event).is_err() {
        script.pop();
        return Err(AllocError);
    }
    Ok(())
}

fn owned(alloc: Global, line: &str) -> Mem<String>
    ensures { IfOk result (λ own. string_bytes own ≡ line.now) }
{
    let mut own = String::new(alloc);
    own.push_str(line)?;
    Ok(own)
}

fn write_line(line: &str, out: &mut String) -> Mem<()>
    ensures { OnOk result (string_bytes out.new ≡ string_bytes out.old ++ ended line.now) }
{
    out.push_str(line)?;
    out.push_str("\n")
}

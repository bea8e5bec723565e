// The events of a set, which its copies share.
ghost use Rattle.set_model.specs.declared.command.Event.{Event};
ghost use Rattle.std.specs.Prelude.{◌≡◌, ◌<◌, ◌++◌, ◌∷◌, [], List, Some, OnErr, OnOk, IfOk, length, slice_get};

use bson_doc::Mem;
use set_model::Event;
use std::alloc::Global;
use std::marker::Model;
use std::sync::Arc;

/// The events so far, oldest first. Copies share them.
#[derive(Drop)]
pub(crate) struct History {
    events: Vec<Arc<Event, Global>>,
}

impl Model for History {
    ghost use Rattle.std.specs.Prelude.{List};
    ghost use Rattle.std.specs.Coded.{coded_list};
    ghost use Rattle.set_model.specs.declared.command.Event.{Event};
    ghost use Rattle.set_model.specs.contracts.command.Event.{the_row};
    ghost use Rattle.play.specs.History.{values_of};

    ghost Value = { List Event };

    ghost coded = { coded_list the_row.coded };

    ghost view = { λ h. values_of h.events.items };
}

impl History {
    pub(crate) fn new(alloc: Global) -> Self
        ensures { result ≡ [] }
    {
        History {
            events: Vec::new(alloc),
        }
    }

    pub(crate) fn len(&self) -> usize
        ensures { result ≡ length self.now }
    {
        self.events.len()
    }

    /// The event at a place.
    pub(crate) fn get(&self, place: usize) -> &Event
        requires { place < length self.now }
        ensures { slice_get self.now place ≡ Some result.now }
    {
        self.events[place].as_ref()
    }

    /// Adds an event. Out of memory leaves the history as it was.
    pub(crate) fn push(&mut self, event: Event) -> Mem<()>
        ensures ok { OnOk result (self.new ≡ self.old ++ event ∷ []) }
        ensures err { OnErr result (self.new ≡ self.old) }
    {
        let event = Arc::new(*self.events.allocator(), event)?;
        self.events.push(event)?;
        Ok(())
    }

    /// Takes the last event out again.
    pub(crate) fn pop(&mut self)
        ensures { (events : List Event) (event : Event) → self.old ≡ events ++ event ∷ []
            → self.new ≡ events }
    {
        let _ = self.events.pop();
    }

    /// The same history for another set.
    pub(crate) fn copy(&self) -> Mem<History>
        ensures { IfOk result (λ copy. copy ≡ self.now) }
    {
        let mut events = Vec::with_capacity(*self.events.allocator(), self.events.len())?;
        for event in &self.events {
            events.push(Arc::try_clone(event)?)?;
        }
        Ok(History { events })
    }
}

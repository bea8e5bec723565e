// Whether the log is open to writers.
ghost use Rattle.std.specs.Prelude.{◌≡◌, false};
ghost use Rattle.set_model.specs.Changes.{stepped_down};
ghost use Rattle.set_model.specs.Points.{if_primary, last_point};
ghost use Rattle.set_model.specs.Roles.{is_primary};
ghost use Rattle.set_model.specs.declared.role.Role.TheVariants.{Primary};

use crate::NodeData;
use rs_optime::OpTime;

impl NodeData {
    /// Opens the log to writers, once all of it is applied.
    pub fn make_writable(&mut self)
        requires role { is_primary self.old.node.role ≡ false }
        requires applied { self.old.node.applied ≡ last_point self.old.node }
        ensures { self.new ≡ record self.old { node = record self.old.node { role = Primary } } }
    {
        self.log.tabulate();
        self.writable = true;
    }

    /// Closes the log to writers. What they wrote then counts as applied. Slots are closed without entries;
    /// the writers that had them are lost and no longer hold their documents.
    pub fn follow(&mut self)
        ensures { self.new ≡ record self.old { node = stepped_down self.old.node } }
    {
        let reached = self.reached();
        self.writers.release_all(&mut self.store);
        self.writers.lose_all();
        self.slots.abort_all();
        self.log.gather();
        self.applied = reached;
        self.writable = false;
    }

    /// How far the log counts as applied once it isn't writable: up to its end, if it was writable.
    fn reached(&self) -> OpTime
        ensures { result ≡ if_primary self.now.node.role (last_point self.now.node) self.now.node.applied }
    {
        if self.writable {
            self.log.written().last()
        } else {
            self.applied
        }
    }
}

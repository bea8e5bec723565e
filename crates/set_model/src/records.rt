// The records that a node stored. They exist only in proofs and take no memory.
ghost use Rattle.std.specs.Prelude.{◌≡◌, List};
ghost use Rattle.std.specs.Borrow.{ftrue};
ghost use Rattle.std.specs.Coded.{coded_list};
ghost use Rattle.repl_msg.specs.declared.record.Record.{Record};
ghost use Rattle.repl_msg.specs.contracts.record.Record.{the_row as record_row};

use crate::Store;
use std::marker::Model;

/// The records that a node stored, oldest first.
#[derive(Drop)]
pub struct Records {
    pub ghost list: { List Record } by { coded_list record_row.coded },
}

impl Model for Records {
    ghost also_owns = { λ _. ftrue };
}

// A struct with `also_owns` isn't `Send` by itself. This one owns nothing.
unsafe impl Send for Records {}

impl Records {
    ghost use Rattle.set_model.specs.Records.{no_records, with_stored};

    /// No record.
    pub fn none() -> Records
        ensures { result ≡ no_records }
    {
        Records {}
    }

    /// The records after this is stored too. A checkpoint isn't a record.
    pub fn with(&self, _item: &Store) -> Records
        ensures { result ≡ with_stored self.now _item.now }
    {
        Records {}
    }

    /// A copy of the records.
    pub fn same(&self) -> Records
        ensures { result ≡ self.now }
    {
        Records {}
    }
}

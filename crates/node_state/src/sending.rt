// What a node sends.
ghost use Rattle.std.specs.Prelude.{◌≡◌, [], ◌∷◌, IfOk};
ghost use Rattle.set_model.specs.Outcome.{message_to};

use crate::State;
use bson_doc::Mem;
use repl_msg::{Body, Message};

impl State {
    /// One message, in a term that the node is about to take.
    pub fn message_in(&self, term: u64, to: u32, body: Body) -> Mem<Vec<Message>>
        ensures { IfOk result (λ sent.
            sent.items ≡ message_to (record self.now.node { term = term }) to body ∷ []) }
    {
        let mut sent = Vec::new(self.alloc);
        sent.push(Message {
            from: self.number,
            to,
            term,
            body,
        })?;
        Ok(sent)
    }
}

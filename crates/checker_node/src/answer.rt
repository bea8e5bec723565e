// What a node did with a command or a message.
ghost use Rattle.std.specs.Prelude.{[]};
ghost use Rattle.checker_node.specs.Done.{Replies};

use repl_msg::Message;
use set_model::Reply;
use std::alloc::Global;

/// The reply, and the messages that the node sent.
#[derive(Drop)]
pub struct Answer {
    pub reply: Reply,
    pub sent: Vec<Message>,
}

impl Answer {
    /// This reply, and no message.
    pub fn alone(alloc: Global, reply: Reply) -> Self
        ensures { Replies result reply [] }
    {
        Answer {
            reply,
            sent: Vec::new(alloc),
        }
    }
}

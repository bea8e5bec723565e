ghost use Rattle.std.specs.Prelude.{◌≡◌, IfOk};

use bson_doc::Mem;
use repl_msg::Message;
use set_model::Reply;

/// What a node did with a command or a message.
#[derive(Drop)]
pub struct Done {
    pub reply: Reply,
    /// The messages that it sent, in order.
    pub sent: Vec<Message>,
    /// The number of the store that failed in this step, counted from 0.
    pub failed: Option<u32>,
    /// At a restart: whether what was being stored when a disk failed is there.
    pub kept: bool,
}

impl Done {
    /// A copy of the outcome.
    pub fn copy(&self) -> Mem<Done>
        ensures reply { IfOk result (λ d. d.reply ≡ self.now.reply) }
        ensures sent { IfOk result (λ d. d.sent.items ≡ self.now.sent.items) }
        ensures failed { IfOk result (λ d. d.failed ≡ self.now.failed) }
        ensures kept { IfOk result (λ d. d.kept ≡ self.now.kept) }
    {
        let mut sent = Vec::with_capacity(*self.sent.allocator(), self.sent.len())?;
        for message in &self.sent {
            sent.push(message.copy()?)?;
        }
        Ok(Done {
            reply: self.reply.copy()?,
            sent,
            failed: self.failed,
            kept: self.kept,
        })
    }
}

// Whose command it is.
ghost use Rattle.std.specs.Prelude.{◌≡◌, ◌<◌, ℕ, true, IfSome, is_none};
ghost use Rattle.set_model.specs.Limits.{is_for};
ghost use Rattle.set_model.specs.World.{World, acts, is_delivery, task};

use crate::Command;

impl Command {
    /// The node whose own command this is; none for the delivery of a message.
    #[tactic(auto, using(crate::proofs::LimitLemmas::named))]
    pub fn actor(&self) -> Option<u32>
        ensures some { IfSome result (λ number. (world : World) → task world self.now ≡ acts number) }
        ensures none { is_delivery self.now ≡ is_none result }
        ensures known { IfSome result (λ number. (size : ℕ) → is_for size self.now ≡ true → number < size) }
    {
        match self {
            Command::Deliver { .. } | Command::DeliverLatest { .. } => None,
            Command::Campaign { node }
            | Command::Drain { node }
            | Command::Insert { node, .. }
            | Command::Replace { node, .. }
            | Command::Update { node, .. }
            | Command::Delete { node, .. }
            | Command::Retry { node, .. }
            | Command::Note { node }
            | Command::Begin { node, .. }
            | Command::Commit { node, .. }
            | Command::Abort { node, .. }
            | Command::Ack { node, .. }
            | Command::Read { node, .. }
            | Command::Dump { node, .. }
            | Command::Log { node }
            | Command::State { node }
            | Command::Rolled { node }
            | Command::DryRun { node }
            | Command::StepDown { node }
            | Command::Heartbeat { node, .. }
            | Command::Report { node, .. }
            | Command::Common { node, .. }
            | Command::Fetch { node }
            | Command::Apply { node, .. }
            | Command::Flush { node }
            | Command::Checkpoint { node }
            | Command::Reconfig { node, .. }
            | Command::Crash { node, .. }
            | Command::Restart { node }
            | Command::DiskFail { node, .. }
            | Command::Clock { node, .. } => Some(*node),
        }
    }
}

ghost use Rattle.std.specs.Prelude.{◌≡◌, ◌<◌, ℕ, [], None, true, false, length, if◌then◌else◌, IfOk, OnErr, OnOk, MatchOption};
ghost use Rattle.std.specs.FinMap as maps;
ghost use Rattle.bson_doc.specs.Place.{Place};
ghost use Rattle.oplog_entry.specs.Docs.{docs};
ghost use Rattle.oplog_entry.specs.Visible.{log_up_to};
ghost use Rattle.rs_disk.specs.File.{IsEmpty};
ghost use Rattle.rs_optime.specs.declared.optime.OpTime.{OpTime};
ghost use Rattle.version_store.specs.Past.{latest_of};
ghost use Rattle.version_store.specs.Store.{versions_at, shown_at};
ghost use Rattle.member_config.specs.Rule.{rule};
ghost use Rattle.set_model.specs.declared.command.Command.TheVariants as commands;
ghost use Rattle.set_model.specs.Deliver.{deliver};
ghost use Rattle.set_model.specs.Limits.{is_within};
ghost use Rattle.set_model.specs.Node.{opening_node};
ghost use Rattle.set_model.specs.Points.{last_point};
ghost use Rattle.set_model.specs.Reads.{local_documents};
ghost use Rattle.set_model.specs.Rows.{row};
ghost use Rattle.set_model.specs.World.{is_delivery};
ghost use Rattle.node_data.specs.NodeData.{IsReadable};
ghost use Rattle.node_core.specs.Acting.{Acted, AreReopened, AreSame, DisksLeft, RunsWithoutOrders, Took, Unchanged};
ghost use Rattle.node_state.specs.Bounds.{IsBounded, IsNumbered, is_own};
ghost use Rattle.node_core.specs.Nodes.{HasFailed, answer_of, checkpoints_after, journal_after};
ghost use Rattle.node_core.specs.Opening.{OpensInTurn, unopened_node};
ghost use Rattle.node_core.specs.Stands.{Stands, StandsSince};
ghost use Rattle.set_model.specs.Taking.{CanTake};

use crate::Done;
use crate::coming_up::come_up;
use crate::disks::Disks;
use crate::down::{DownState, left_of, told};
use crate::storing::{act_own, take_in};
use bson_doc::Mem;
use member_config::Config;
use node_answers::{answer, is_plain};
use node_state::State;
use record_file::FileError;
use repl_msg::Message;
use rs_disk::Disk;
use rs_optime::OpTime;
use set_model::{Command, DiskName, Refusal, Reply};
use std::alloc::Global;
use std::marker::Model;
use std::thread::Threads;
use version_store::VersionStore;

/// A node on its two disks, up or down. Contracts see it as the node of `set_model` and the two disks.
#[derive(Drop)]
pub struct Node<D: Disk> {
    pub(crate) alloc: Global,
    /// The node while it is up. While it is down only its number and its first configuration count.
    pub(crate) state: State,
    pub(crate) disks: Disks<D>,
    pub(crate) up: bool,
    /// What it knows while it is down.
    pub(crate) left: DownState,
}

impl<D: Disk> Model for Node<D> {
    ghost use Rattle.std.specs.Coded.{codes};
    ghost use Rattle.bson_doc.specs.Code.{fields_code};
    ghost use Rattle.rs_optime.specs.Order.{optime_code};
    ghost use Rattle.oplog_entry.specs.contracts.entry.Entry as entry;
    ghost use Rattle.bson_doc.specs.contracts.key.IdKey as key;
    ghost use Rattle.member_config.specs.contracts.config.Config as config_row;
    ghost use Rattle.repl_msg.specs.contracts.record.Record as record_kept;
    ghost use Rattle.set_model.specs.contracts.store.Store as store_row;
    ghost use Rattle.node_data.specs.Code.{writers_code, slots_code, progress_code, known_code, tally_code};
    ghost use Rattle.set_model.specs.Node.{Node as Seen};

    ghost Value = { Seen × D × D };

    ghost coded = { Prim.hlevel (
      codes,
      fields_code,
      optime_code,
      key.the_row.coded,
      entry.the_row.coded,
      config_row.the_row.coded,
      record_kept.the_row.coded,
      store_row.the_row.coded,
      writers_code,
      slots_code,
      progress_code,
      known_code,
      tally_code,
    ) };

    ghost use Rattle.node_core.specs.Down.{down_state, seen_node};
    ghost use Rattle.node_core.specs.OnDisks.{IsOnDisks};

    ghost view = { λ n.
        (seen_node n.up n.state.node (down_state n.left), n.disks.journal.0, n.disks.checkpoints) };

    ghost invariant = { λ n. IsOnDisks n.up n.state.node (down_state n.left) n.disks.count
        (D.state n.disks.journal.0) (D.state n.disks.checkpoints) };
}

impl<D: Disk> Node<D> {
    /// A node at the opening of the set, on two empty disks: the journal's, and that of the checkpoints.
    ///
    /// # Errors
    /// `Memory`, or `Disk` where one of them failed. The disks are handed back in the same order, with the
    /// node as at the opening, except that its journal may lack the record of its form.
    pub fn open(
        alloc: Global,
        number: u32,
        config: &Config,
        journal: D,
        checkpoint: D,
    ) -> Result<Node<D>, (D, D, FileError)>
        requires number { number < 50 }
        requires config { rule config.now ≡ None }
        requires journal { IsEmpty (D.state journal).file }
        requires checkpoint { IsEmpty (D.state checkpoint).file }
        ensures node { IfOk result (λ node. node.0 ≡ opening_node config.now number) }
        ensures stands { OnOk result (Stands (opening_node config.now number)
            (D.state (journal_after result)) (D.state (checkpoints_after result))) }

        // A crash at any moment leaves no documents, and no record other than that of the journal's form.
        ensures any_moment { StandsSince (unopened_node config.now number) (D.state journal)
            (D.state (journal_after result)) (D.state checkpoint) (D.state (checkpoints_after result)) }
        ensures calls { OpensInTurn (answer_of result) (D.state journal) (D.state (journal_after result))
            (D.state checkpoint) (D.state (checkpoints_after result)) }
        ensures runs { RunsWithoutOrders (HasFailed (answer_of result)) (D.state journal)
            (D.state (journal_after result)) (D.state checkpoint) (D.state (checkpoints_after result)) }
    {
        let Ok(state) = State::open(alloc, number, config) else {
            return Err((journal, checkpoint, FileError::Memory));
        };
        match Disks::open(alloc, journal, checkpoint) {
            Ok(disks) => {
                let left = left_of(&state, None);
                Ok(Node {
                    alloc,
                    state,
                    disks,
                    up: true,
                    left,
                })
            }
            Err(failed) => Err(failed),
        }
    }

    /// Does what a command asks of this node, in a set of `nodes` nodes, where the next message gets the
    /// number `next`. A store that fails is no error: it has its number in `failed`, and the node is down
    /// then and sends nothing.
    ///
    /// # Errors
    /// Out of memory alone. Then the node and its files are as they were. Only a restart may have opened the
    /// files again, which leaves what they had.
    pub fn act<R: Threads + Sync>(
        &mut self,
        rt: &R,
        nodes: u32,
        next: u64,
        command: &Command,
    ) -> Mem<Done>
        requires bounds { IsBounded self.old.0 }
        requires next { IsNumbered next }
        requires here { is_delivery command.now ≡ false }
        requires within { is_within command.now ≡ true }
        ensures ok { IfOk result (λ done.
            Acted (row nodes next done.kept self.old.0 command.now) command.now self.old.0 self.new.0
            (D.state self.old.1) (D.state self.new.1) (D.state self.old.2) (D.state self.new.2) done) }
        ensures err { OnErr result (Unchanged (DisksLeft command.now) self.old.0 self.new.0
            (D.state self.old.1) (D.state self.new.1) (D.state self.old.2) (D.state self.new.2)) }
    {
        match command {
            Command::Crash { pick, .. } => Ok(self.crash(*pick)),
            Command::Restart { .. } => self.restart(rt),
            Command::DiskFail {
                disk,
                call,
                pick,
                ..
            } => Ok(self.disk_fail(*disk, *call, *pick)),
            _ => self.act_in_memory(rt, nodes, next, command),
        }
    }

    /// Takes a message of the set, where the next message gets the number `next`. A node that is down refuses
    /// it. A store that fails is no error: it has its number in `failed`, and the node is down then and sends
    /// nothing.
    ///
    /// # Errors
    /// Only out of memory. Then the node and its files are as they were.
    pub fn take<R: Threads + Sync>(&mut self, rt: &R, next: u64, message: &Message) -> Mem<Done>
        requires bounds { IsBounded self.old.0 }
        requires next { IsNumbered next }
        requires message { self.old.0.up ≡ true → CanTake self.old.0 message.now }
        ensures ok { IfOk result (λ done. Took (deliver next self.old.0 message.now) self.new.0
            (D.state self.old.1) (D.state self.new.1) (D.state self.old.2) (D.state self.new.2) done) }
        ensures unkept { IfOk result (λ done. done.kept ≡ false) }
        ensures err { OnErr result (Unchanged AreSame self.old.0 self.new.0
            (D.state self.old.1) (D.state self.new.1) (D.state self.old.2) (D.state self.new.2)) }
    {
        self.state.recall_sound();
        if !self.up {
            return Ok(self.answered(Reply::Refused(Refusal::NodeDown)));
        }
        let ended = take_in(&mut self.state, &mut self.disks, rt, next, message)?;
        Ok(told(self.alloc, &self.state, &mut self.up, &mut self.left, ended))
    }

    // A command that a node does in memory, storing as it goes.
    fn act_in_memory<R: Threads + Sync>(
        &mut self,
        rt: &R,
        nodes: u32,
        next: u64,
        command: &Command,
    ) -> Mem<Done>
        requires bounds { IsBounded self.old.0 }
        requires next { IsNumbered next }
        requires own { is_own command.now ≡ true }
        requires within { is_within command.now ≡ true }
        ensures ok { IfOk result (λ done. Took (row nodes next false self.old.0 command.now) self.new.0
            (D.state self.old.1) (D.state self.new.1) (D.state self.old.2) (D.state self.new.2) done) }
        ensures unkept { IfOk result (λ done. done.kept ≡ false) }
        ensures err { OnErr result (Unchanged AreSame self.old.0 self.new.0
            (D.state self.old.1) (D.state self.new.1) (D.state self.old.2) (D.state self.new.2)) }
    {
        if !self.up {
            return Ok(self.act_down(command));
        }
        if is_plain(command) {
            let reply = answer(&mut self.state, command)?;
            return Ok(self.answered(reply));
        }
        let ended = act_own(&mut self.state, &mut self.disks, rt, nodes, next, command)?;
        Ok(told(self.alloc, &self.state, &mut self.up, &mut self.left, ended))
    }

    // Of a node that is down, only the clock is set.
    fn act_down(&mut self, command: &Command) -> Done
        requires down { self.old.0.up ≡ false }
        requires own { is_own command.now ≡ true }
        ensures ok { (nodes next : ℕ) → Took (row nodes next false self.old.0 command.now) self.new.0
            (D.state self.old.1) (D.state self.new.1) (D.state self.old.2) (D.state self.new.2) result }
        ensures unkept { result.kept ≡ false }
    {
        self.state.recall_sound();
        match command {
            Command::Clock { seconds, .. } => {
                self.left.clock = *seconds;
                self.answered(Reply::Clock(*seconds))
            }
            _ => self.answered(Reply::Refused(Refusal::NodeDown)),
        }
    }

    // A command that stores and sends nothing.
    fn answered(&self, reply: Reply) -> Done
        ensures reply { result.reply ≡ reply }
        ensures sent { result.sent.items ≡ [] }
        ensures failed { result.failed ≡ None }
        ensures unkept { result.kept ≡ false }
    {
        Done {
            reply,
            sent: Vec::new(self.alloc),
            failed: None,
            kept: false,
        }
    }

    // The power of both disks and of the node is cut.
    fn crash(&mut self, pick: u64) -> Done
        ensures ok { (nodes next node : ℕ)
            → Acted (row nodes next false self.old.0 (commands.Crash node pick))
            (commands.Crash node pick) self.old.0 self.new.0 (D.state self.old.1) (D.state self.new.1)
            (D.state self.old.2) (D.state self.new.2) result }
        ensures unkept { result.kept ≡ false }
    {
        self.state.recall_sound();
        self.state.recall_well_kept();
        if !self.up {
            return self.answered(Reply::Refused(Refusal::NodeDown));
        }
        self.left = left_of(&self.state, None);
        self.disks.cut_power(pick);
        self.up = false;
        self.answered(Reply::Down)
    }

    // A node that is down opens its disks again, and comes up with what is there.
    fn restart<R: Threads + Sync>(&mut self, rt: &R) -> Mem<Done>
        requires bounds { IsBounded self.old.0 }
        ensures ok { (nodes next node : ℕ) → IfOk result (λ done.
            Acted (row nodes next done.kept self.old.0 (commands.Restart node))
            (commands.Restart node) self.old.0 self.new.0 (D.state self.old.1) (D.state self.new.1)
            (D.state self.old.2) (D.state self.new.2) done) }
        ensures err { OnErr result (Unchanged AreReopened self.old.0 self.new.0
            (D.state self.old.1) (D.state self.new.1) (D.state self.old.2) (D.state self.new.2)) }
    {
        self.state.recall_sound();
        if !self.up {
            return come_up(
                self.alloc,
                rt,
                &mut self.state,
                &mut self.disks,
                &mut self.up,
                &mut self.left,
            );
        }
        Ok(self.answered(Reply::Refused(Refusal::NotDown)))
    }

    // One of the disks is ordered to fail.
    fn disk_fail(&mut self, disk: DiskName, call: u32, pick: Option<u64>) -> Done
        ensures ok { (nodes next node : ℕ)
            → Acted (row nodes next false self.old.0 (commands.DiskFail node disk call pick))
            (commands.DiskFail node disk call pick) self.old.0 self.new.0 (D.state self.old.1)
            (D.state self.new.1) (D.state self.old.2) (D.state self.new.2) result }
        ensures unkept { result.kept ≡ false }
    {
        self.disks.arm(disk, call, pick);
        self.answered(Reply::Armed)
    }

    /// Lends the documents, in 64 shards. Those of a node that is up are what results from its log, as of
    /// each optime that can be read.
    pub fn store(&self) -> &VersionStore
        ensures latest { self.now.0.up ≡ true → (place : Place)
            → latest_of (versions_at result.now place) ≡ maps.get (local_documents self.now.0) place }
        ensures shown { self.now.0.up ≡ true → (place : Place) (at : OpTime) → IsReadable self.now.0 at
            → shown_at result.now place at ≡ maps.get (docs (log_up_to at self.now.0.log)) place }
        ensures shards { result.now.count ≡ 64 }
    {
        self.state.store()
    }

    /// Whether it is up, rather than down after a crash or a failure of a disk.
    pub fn is_up(&self) -> bool
        ensures { result ≡ self.now.0.up }
    {
        self.state.recall_sound();
        self.up
    }

    /// The optimes of its last entry, or ZERO, and of its commit point; none for a node that is down.
    pub fn points(&self) -> Option<(OpTime, OpTime)>
        ensures { MatchOption result (self.now.0.up ≡ false)
            (λ points. (self.now.0.up ≡ true) × (points ≡ (last_point self.now.0, self.now.0.commit))) }
    {
        if self.is_up() {
            Some(self.state.points())
        } else {
            None
        }
    }

    /// How many entries its log has up to its commit point; 0 of a node that is down.
    pub fn committed(&mut self) -> u64
        ensures count { result ≡ (if self.old.0.up
            then length (log_up_to self.old.0.commit self.old.0.log) else 0) }
        ensures same { self.new ≡ self.old }
    {
        if self.is_up() {
            self.state.committed()
        } else {
            0
        }
    }

    /// Hands the disks back as they are, the journal's first.
    pub fn close(self) -> (D, D)
        ensures { result ≡ (self.1, self.2) }
    {
        let Node {
            alloc: _,
            state: _,
            disks: Disks {
                journal,
                checkpoints,
                count: _,
            },
            up: _,
            left: _,
        } = self;
        (journal.close(), checkpoints.close())
    }
}

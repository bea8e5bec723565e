// The nodes of a set, opened on its first disks and closed again.
ghost use Rattle.std.specs.Prelude.{◌≡◌, ◌<◌, ◌≤◌, ◌+◌, ◌*◌, ◌++◌, ◌∷◌, [], All, vec_len, vec_capacity, Err, IfErr, IfOk, None, Ok, OnErr, OnOk};
ghost use Rattle.rs_disk.specs.File.{IsEmpty};
ghost use Rattle.member_config.specs.Config.{first_config as begins_with, first_member};
ghost use Rattle.member_config.specs.Rule.{rule};
ghost use Rattle.set_model.specs.Node.{opening_node};
ghost use Rattle.set_model.specs.World.{nodes_from};
ghost use Rattle.node_core.specs.Opening.{unopened_node};
ghost use Rattle.set_world.specs.Acting.{EachNodeStands, NodeStands};
ghost use Rattle.set_world.specs.Disks.{AllBegin, Opens, TwoDisksReturned, TwoDisksRan};
ghost use Rattle.set_world.specs.World.{CanTakeBack, disks_in, nodes_in};

use bson_doc::Mem;
use member_config::{Config, Member, MemberList};
use node_core::Node;
use record_file::FileError;
use rs_disk::Disk;
use std::alloc::Global;

/// Puts the disks of some nodes before others, which have room for them.
pub(crate) fn give_back<D: Disk>(nodes: Vec<Node<D>>, disks: &mut Vec<D>)
    requires room { CanTakeBack (vec_len nodes) disks.old }
    ensures items { disks.new.items ≡ disks_in nodes.items ++ disks.old.items }
    ensures len { vec_len disks.new ≡ 2 * vec_len nodes + vec_len disks.old }
{
    let mut nodes = nodes;
    while let Some(node) = nodes.pop() {
        let (journal, checkpoints) = node.close();
        put_first(disks, checkpoints);
        put_first(disks, journal);
    }
    nodes.destroy_empty();
}

fn put_first<D: Disk>(disks: &mut Vec<D>, disk: D)
    requires room { vec_len disks.old < vec_capacity disks.old }
    ensures items { disks.new.items ≡ disk ∷ disks.old.items }
    ensures len { vec_len disks.new ≡ vec_len disks.old + 1 }
    ensures capacity { vec_capacity disks.new ≡ vec_capacity disks.old }
{
    match disks.insert(0, disk) {
        Ok(()) => {}
        Err(_) => unreachable!(),
    }
}

/// Opens nodes on the first disks, two for each. Where one can't be opened, all disks are in their places
/// again, with the nodes as at the opening of the set, except that a journal may lack the record of its form.
pub(crate) fn open_nodes<D: Disk>(
    alloc: Global,
    count: u32,
    config: &Config,
    disks: &mut Vec<D>,
) -> Result<Vec<Node<D>>, FileError>
    requires few { count ≤ 50 }
    requires config { rule config.now ≡ None }
    requires enough { 2 * count ≤ vec_len disks.old }
    requires empty { All (λ (disk : D). IsEmpty (D.state disk).file) disks.old.items }
    ensures nodes { IfOk result (λ nodes. nodes_in nodes.items ≡ nodes_from config.now 0 count) }
    ensures room { IfOk result (λ nodes. CanTakeBack (vec_len nodes) disks.new) }
    ensures stand { IfOk result (λ nodes. EachNodeStands D.state nodes.items) }
    ensures opened { IfOk result (λ nodes.
        Opens D.state count (Ok tt) disks.old.items (disks_in nodes.items ++ disks.new.items)) }
    ensures refused { IfErr result (λ error.
        Opens D.state count (Err error) disks.old.items disks.new.items) }
    ensures handed_back { OnErr result (AllBegin D.state config.now count disks.new.items) }
{
    let mut nodes = Vec::with_capacity(alloc, count as usize)?;
    for number in 0..count {
        match open_next(alloc, number, config, disks) {
            Ok(node) => keep(&mut nodes, node),
            Err(error) => {
                give_back(nodes, disks);
                return Err(error);
            }
        }
    }
    Ok(nodes)
}

/// Opens a node on the first two disks. Where it can't be opened, they are in their places again.
fn open_next<D: Disk>(
    alloc: Global,
    number: u32,
    config: &Config,
    disks: &mut Vec<D>,
) -> Result<Node<D>, FileError>
    requires number { number < 50 }
    requires config { rule config.now ≡ None }
    requires enough { 2 ≤ vec_len disks.old }
    requires empty { All (λ (disk : D). IsEmpty (D.state disk).file) disks.old.items }
    ensures node { IfOk result (λ node. node.0 ≡ opening_node config.now number) }
    ensures stands { IfOk result (NodeStands D.state) }
    ensures two { IfOk result (λ node.
        TwoDisksRan D.state (Ok tt) disks.old.items node.1 node.2 disks.new.items) }
    ensures back { IfErr result (λ error. TwoDisksReturned D.state (unopened_node config.now number)
        (Err error) disks.old.items disks.new.items) }
    ensures fewer { OnOk result (vec_len disks.new + 2 ≡ vec_len disks.old) }
    ensures all { OnErr result (vec_len disks.new ≡ vec_len disks.old) }
    ensures capacity { vec_capacity disks.new ≡ vec_capacity disks.old }
{
    let journal = disks.remove(0);
    let checkpoints = disks.remove(0);
    match Node::open(alloc, number, config, journal, checkpoints) {
        Ok(node) => Ok(node),
        Err((journal, checkpoints, error)) => {
            put_first(disks, checkpoints);
            put_first(disks, journal);
            Err(error)
        }
    }
}

/// Appends a node to others, for which there is room.
fn keep<D: Disk>(nodes: &mut Vec<Node<D>>, node: Node<D>)
    requires room { vec_len nodes.old < vec_capacity nodes.old }
    ensures items { nodes.new.items ≡ nodes.old.items ++ node ∷ [] }
    ensures len { vec_len nodes.new ≡ vec_len nodes.old + 1 }
    ensures capacity { vec_capacity nodes.old ≤ vec_capacity nodes.new }
{
    match nodes.push(node) {
        Ok(()) => {}
        Err(_) => unreachable!(),
    }
}

/// The configuration that a set begins with, by the number of its members and of those that vote.
pub(crate) fn first_config(alloc: Global, voters: u32, members: u32) -> Mem<Config>
    requires { members ≤ 50 }
    ensures { IfOk result (λ config. config ≡ begins_with voters members) }
{
    let mut list = MemberList::new(alloc);
    for number in 0..members {
        list.push(first_member(voters, number))?;
    }
    Ok(Config {
        term: 0,
        version: 1,
        members: list,
        chaining: true,
    })
}

/// A member of that configuration: the first ones vote, with priority 1, and no other can be elected.
fn first_member(voters: u32, number: u32) -> Member
    ensures { result ≡ first_member voters number }
{
    let votes = number < voters;
    Member {
        number,
        votes,
        priority: if votes { 1 } else { 0 },
    }
}

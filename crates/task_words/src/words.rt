// What the words after the program's name ask for.
ghost use Rattle.std.specs.Prelude.{◌≡◌, IfOk, IfSome, map, string_bytes};
ghost use Rattle.std.specs.Char.{is_ascii_digit};
ghost use Rattle.std.specs.List.{list_all};
ghost use Rattle.task_words.specs.declared.words.Task.TheVariants.{Chaos};
ghost use Rattle.task_words.specs.Tasks.{IsBounded, alone, chaos_task, is_check, linear_task, number_word, sync_task, task_of, wanted_of, watch_task, word_task};

use bson_doc::Mem;
use change_words::{Watch, node_of, read_watch};
use linear_words::{Linear, read_linear};
use std::alloc::Global;

/// The events of a generated script times the nodes of its set are at most this many, so that it has fewer
/// lines than a script may have.
const MOST_PRODUCT: u32 = 50_000;

/// A script to generate: its seed, its number of events, up to 5,000, and the number of its set's nodes, 1 to
/// 50. The product of the two is at most 50,000.
#[derive(Clone, Copy)]
pub struct Wanted {
    pub seed: u64,
    pub events: u32,
    pub nodes: u32,
}

/// What is to be done.
#[derive(Drop)]
pub enum Task {
    /// The script of the source is run.
    Run,
    /// It is run, and in place of the replies the trace of its run is put.
    Trace,
    /// A generated script is run, and its summary put.
    Chaos { seed: u64, events: u32, nodes: u32 },
    /// The script of the source is run, and then a document is read linearly.
    Linear(Linear),
    /// The script of the source is run, and then the changes are put that nodes have after a token.
    Watch(Watch),
    /// The script of the source is run, and then a new member is made of what this node has committed.
    Sync { node: u32 },
}

/// Whether the words ask for a check of the source's bytes.
pub fn asks_check(words: &[String]) -> bool
    ensures { result ≡ is_check (map string_bytes words.now) }
{
    match words {
        [word] => word.as_str() == "check",
        _ => false,
    }
}

/// The task that some words ask for; none where the words are wrong.
pub fn read_task(alloc: Global, words: &[String]) -> Mem<Option<Task>>
    ensures asked { IfOk result (λ task. task ≡ task_of (map string_bytes words.now)) }
    ensures bounds { IfOk result (λ task. IfSome task IsBounded) }
{
    match words {
        [name, others @ ..] => word_task(alloc, name.as_str(), others),
        [] => Ok(None),
    }
}

/// The task that one word asks for, given the words after it.
fn word_task(alloc: Global, name: &str, words: &[String]) -> Mem<Option<Task>>
    ensures asked { IfOk result (λ task. task ≡ word_task name.now (map string_bytes words.now)) }
    ensures bounds { IfOk result (λ task. IfSome task IsBounded) }
{
    match name {
        "run" => Ok(alone(Task::Run, words)),
        "trace" => Ok(alone(Task::Trace, words)),
        "linear" => linear_task(alloc, words),
        "watch" => watch_task(alloc, words),
        "sync" => Ok(sync_task(words)),
        "chaos" => Ok(chaos_task(words)),
        _ => Ok(None),
    }
}

/// The task of a word on its own.
fn alone(task: Task, words: &[String]) -> Option<Task>
    requires bounds { IsBounded task }
    ensures asked { result ≡ alone task (map string_bytes words.now) }
    ensures bounds { IfSome result IsBounded }
{
    if words.is_empty() { Some(task) } else { None }
}

fn linear_task(alloc: Global, words: &[String]) -> Mem<Option<Task>>
    ensures asked { IfOk result (λ task. task ≡ linear_task (map string_bytes words.now)) }
    ensures bounds { IfOk result (λ task. IfSome task IsBounded) }
{
    match words {
        [node, collection, id] => {
            let linear = read_linear(alloc, node.as_str(), collection.as_str(), id.as_str())?;
            Ok(linear.map(Task::Linear))
        }
        _ => Ok(None),
    }
}

fn watch_task(alloc: Global, words: &[String]) -> Mem<Option<Task>>
    ensures asked { IfOk result (λ task. task ≡ watch_task (map string_bytes words.now)) }
    ensures bounds { IfOk result (λ task. IfSome task IsBounded) }
{
    match words {
        [collection, token, nodes @ ..] => {
            let watch = read_watch(alloc, collection.as_str(), token.as_str(), nodes)?;
            Ok(watch.map(Task::Watch))
        }
        _ => Ok(None),
    }
}

fn sync_task(words: &[String]) -> Option<Task>
    ensures asked { result ≡ sync_task (map string_bytes words.now) }
    ensures bounds { IfSome result IsBounded }
{
    match words {
        [node] => Some(Task::Sync {
            node: node_of(node.as_bytes())?,
        }),
        _ => None,
    }
}

fn chaos_task(words: &[String]) -> Option<Task>
    ensures asked { result ≡ chaos_task (map string_bytes words.now) }
    ensures bounds { IfSome result IsBounded }
{
    match words {
        [seed, events, nodes] => {
            let wanted = read_wanted(seed.as_str(), events.as_str(), nodes.as_str())?;
            Some(Task::Chaos {
                seed: wanted.seed,
                events: wanted.events,
                nodes: wanted.nodes,
            })
        }
        _ => None,
    }
}

/// The generated script that SEED, EVENTS and NODES ask for; none where the words are wrong.
pub fn read_wanted(seed: &str, events: &str, nodes: &str) -> Option<Wanted>
    ensures asked { result ≡ wanted_of seed.now events.now nodes.now }
    ensures bounds { IfSome result (λ wanted. IsBounded (Chaos wanted.seed wanted.events wanted.nodes)) }
{
    let seed = number(seed, 0, u64::MAX)?;
    let events = number(events, 0, 5_000)? as u32;
    let nodes = number(nodes, 1, 50)? as u32;
    (events.saturating_mul(nodes) <= MOST_PRODUCT).then_some(Wanted {
        seed,
        events,
        nodes,
    })
}

/// One to twenty decimal digits, whose number is in this range.
fn number(word: &str, least: u64, most: u64) -> Option<u64>
    ensures { result ≡ number_word least most word.now }
{
    if word.is_empty() || word.len() > 20 || !are_digits(word) {
        return None;
    }
    let Ok(number) = word.parse::<u64>() else {
        return None;
    };
    (least <= number && number <= most).then_some(number)
}

fn are_digits(word: &str) -> bool
    ensures { result ≡ list_all is_ascii_digit word.now }
{
    word.as_bytes().iter().all(|byte| byte.is_ascii_digit())
}

// The document to be read.
ghost use Rattle.std.specs.Prelude.{◌≡◌, true, IfOk};
ghost use Rattle.set_model.specs.Limits.{is_collection};
ghost use Rattle.linear_words.specs.Asked.{collection_of, id_of, linear_of, whole_value};

use bson_doc::{Mem, Text, Value};
use change_words::node_of;
use doc_text::{TextError, read_value};
use script_words::is_collection;
use std::alloc::{AllocError, Global};
use std::marker::Model;

/// A linear read that is asked for.
#[derive(Drop)]
pub struct Linear {
    /// The node that is asked.
    pub node: u32,
    /// The collection of the document.
    pub collection: Collection,
    /// Its key.
    pub id: Value,
}

/// A collection's name.
#[derive(Drop)]
pub struct Collection {
    name: Text,
}

impl Model for Collection {
    ghost use Rattle.std.specs.Prelude.{ℕ, List};
    ghost use Rattle.std.specs.Coded.{codes};

    ghost Value = { List ℕ };

    ghost coded = { Prim.hlevel codes };

    ghost use Rattle.std.specs.Prelude.{◌≡◌, true};
    ghost use Rattle.set_model.specs.Limits.{is_collection};

    ghost view = { λ c. c.name };

    ghost invariant = { λ c. is_collection c.name ≡ true };
}

impl Collection {
    /// The collection that a word names; none for another word.
    fn read(alloc: Global, word: &str) -> Mem<Option<Self>>
        ensures { IfOk result (λ collection. collection ≡ collection_of word.now) }
    {
        if !is_collection(word.as_bytes()) {
            return Ok(None);
        }
        let name = Text::from_str(alloc, word)?;
        Ok(Some(Collection { name }))
    }

    /// The name.
    pub fn as_str(&self) -> &str
        ensures value { result.now ≡ self.now }
        ensures collection { is_collection self.now ≡ true }
    {
        self.name.as_str()
    }
}

/// The linear read that some words ask for; none where the words are wrong.
pub fn read_linear(alloc: Global, node: &str, collection: &str, id: &str) -> Mem<Option<Linear>>
    ensures { IfOk result (λ linear. linear ≡ linear_of node.now collection.now id.now) }
{
    let Some(node) = node_of(node.as_bytes()) else {
        return Ok(None);
    };
    let Some(collection) = Collection::read(alloc, collection)? else {
        return Ok(None);
    };
    let Some(id) = read_id(alloc, id)? else {
        return Ok(None);
    };
    Ok(Some(Linear {
        node,
        collection,
        id,
    }))
}

/// The value that a word spells, if it doesn't begin with `-`.
fn read_id(alloc: Global, word: &str) -> Mem<Option<Value>>
    ensures { IfOk result (λ id. id ≡ id_of word.now) }
{
    let [first, ..] = word.as_bytes() else {
        return Ok(None);
    };
    if *first == b'-' {
        return Ok(None);
    }
    read_whole(alloc, word)
}

/// The value that the whole word spells.
fn read_whole(alloc: Global, word: &str) -> Mem<Option<Value>>
    ensures { IfOk result (λ id. id ≡ whole_value word.now) }
{
    match read_value(alloc, word, 0) {
        Ok((value, end)) => Ok(if end == word.len() { Some(value) } else { None }),
        Err(TextError::Memory) => Err(AllocError),
        Err(_) => Ok(None),
    }
}

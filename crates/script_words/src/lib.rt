//! One line of a script, word by word: the sizes of the set, or a command, or the first rule that
//! the line breaks.
#![tactic(auto)]

mod choices;
mod commands;
mod configs;
mod rule;
mod set;
mod shape;
mod values;
mod verb;
mod words;
mod writes;

pub use choices::{concern, level, target};
pub use commands::{command, command_verb, keyword, of_node};
pub use rule::{LineError, ScriptRule, TextRule};
pub use set::{MAX_NODES, SetLine, most_voters, set_line};
pub use shape::Shape;
pub use values::{last_value, text};
pub use verb::{Keyword, NodeVerb, Verb, WriteKind};
pub use words::{
    Left, Read, collection, has_shape, is_collection, node, number, number_of, other_node, word,
};

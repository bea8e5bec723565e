// The lines of a want.
ghost use Rattle.std.specs.Prelude.{◌≡◌, codes};
ghost use Rattle.std.specs.Option.{option_copied};
ghost use Rattle.explore_words.specs.Gives.{Gives, Reads};
ghost use Rattle.explore_words.specs.Texts.{cut_at_last};
ghost use Rattle.explore_words.specs.Wants.{add_event, add_look, add_wanted, is_new, may_be_event, new_event, one_more_look, parts_of};

use crate::events::event;
use crate::fault::{QuestionRule, Stop};
use crate::lists::Looks;
use crate::looking::{SightVerb, sight};
use crate::question::{Look, Want};
use crate::texts::cut_at_last;
use crate::words::{any_node, is_star, names_one, wanted_verb};
use bson_doc::Text;
use script_words::{Left, Verb};
use std::alloc::Global;

impl Want {
    /// Whether it has no line yet.
    pub(crate) fn is_new(&self) -> bool
        ensures { result ≡ is_new self.now }
    {
        match self {
            Want::Event(_, _) => false,
            Want::Seen(looks) => looks.as_slice().is_empty(),
        }
    }

    /// The same want with this line.
    #[tactic(auto, unfolding(crate::specs::Wants::add_wanted))]
    pub(crate) fn with_line(self, alloc: Global, nodes: u32, line: &str) -> Result<Want, Stop>
        ensures { Gives (λ want. want) result (add_wanted nodes line.now self) }
    {
        let (command, text) = parts(line)?;
        let (verb, left) = wanted_verb(command)?;
        match SightVerb::of(verb) {
            Some(verb) => self.with_look(alloc, nodes, verb, left, text),
            None => self.with_event(alloc, nodes, verb, left, text),
        }
    }

    /// An event may not stand beside another line, nor be the delivery of one message.
    fn with_event(
        self,
        alloc: Global,
        nodes: u32,
        verb: Verb,
        left: Left<'_>,
        text: &str,
    ) -> Result<Want, Stop>
        ensures { Gives (λ want. want) result
            (add_event nodes verb (option_copied left.entry) text.now self) }
    {
        if self.may_be_event(verb, left) {
            new_event(alloc, nodes, verb, left, text)
        } else {
            Err(Stop::Rule(QuestionRule::BadWant))
        }
    }

    fn may_be_event(&self, verb: Verb, left: Left<'_>) -> bool
        ensures { result ≡ may_be_event verb (option_copied left.entry) self.now }
    {
        self.is_new() && (!names_one(verb, left) || is_star(left))
    }

    /// Looks stand with looks.
    fn with_look(
        self,
        alloc: Global,
        nodes: u32,
        verb: SightVerb,
        left: Left<'_>,
        text: &str,
    ) -> Result<Want, Stop>
        ensures { Gives (λ want. want) result
            (add_look nodes verb (option_copied left.entry) text.now self) }
    {
        match self {
            Want::Event(_, _) => Err(Stop::Rule(QuestionRule::BadWant)),
            Want::Seen(looks) => one_more_look(alloc, nodes, verb, left, text, looks),
        }
    }
}

/// `COMMAND => TEXT`: the command, and the text after the last arrow, which isn't empty.
fn parts(line: &str) -> Result<(&str, &str), QuestionRule>
    ensures { Reads (λ x. (x.0.now, x.1.now)) result (parts_of (cut_at_last (codes " => ") line.now)) }
{
    match cut_at_last(line, " => ") {
        Some((command, text)) if !text.is_empty() => Ok((command, text)),
        _ => Err(QuestionRule::BadWant),
    }
}

/// A want that is this event alone.
#[tactic(auto, unfolding(crate::specs::Wants::new_event))]
fn new_event(
    alloc: Global,
    nodes: u32,
    verb: Verb,
    left: Left<'_>,
    text: &str,
) -> Result<Want, Stop>
    ensures { Gives (λ want. want) result (new_event nodes verb (option_copied left.entry) text.now) }
{
    let event = event(alloc, nodes, verb, left)?;
    if !event.may_have(text) {
        return Err(Stop::Rule(QuestionRule::BadWant));
    }
    Ok(Want::Event(event, Text::from_str(alloc, text)?))
}

/// A want of these looks and one more.
#[tactic(auto, unfolding(crate::specs::Wants::one_more_look))]
fn one_more_look(
    alloc: Global,
    nodes: u32,
    verb: SightVerb,
    left: Left<'_>,
    text: &str,
    looks: Looks,
) -> Result<Want, Stop>
    ensures { Gives (λ want. want) result
        (one_more_look nodes verb (option_copied left.entry) text.now looks) }
{
    let mut looks = looks;
    let (node, left) = any_node(left, nodes)?;
    let sight = sight(alloc, verb, left)?;
    let text = Text::from_str(alloc, text)?;
    looks.push(Look { node, sight, text })?;
    Ok(Want::Seen(looks))
}

// A want of which some lines are read.
ghost use Rattle.std.specs.Prelude.{◌≡◌, ◌&&◌, ◌++◌, ◌∷◌, [], IfOk, not, string_bytes};
ghost use Rattle.explore_words.specs.Gives.{Gives};
ghost use Rattle.explore_words.specs.Texts.{goes_on};
ghost use Rattle.explore_words.specs.Wants.{add_wanted, go_on, is_new, longer, longer_look, may_go_on, want_line};
ghost use Rattle.explore_words.specs.declared.question.Want.TheVariants.{Seen};

use crate::fault::{QuestionRule, Stop};
use crate::lists::Looks;
use crate::question::{Look, Want};
use crate::texts::{goes_on, names_message};
use bson_doc::{Mem, Text};
use std::alloc::Global;
use std::marker::Model;

/// A want of which some lines are read. What goes on with the text of the last one stands beside it, so that
/// this text isn't copied with each line.
#[derive(Drop)]
pub struct OpenWant {
    want: Want,
    more: String,
}

impl Model for OpenWant {
    ghost use Rattle.std.specs.Prelude.{string_bytes};
    ghost use Rattle.explore_words.specs.declared.question.Want.{Want};
    ghost use Rattle.explore_words.specs.contracts.question.Want.{the_row};
    ghost use Rattle.explore_words.specs.Wants.{longer};

    ghost Value = { Want };

    ghost coded = { the_row.coded };

    ghost view = { λ o. longer (string_bytes o.more) o.want };
}

impl OpenWant {
    /// A want without a line yet.
    pub fn new(alloc: Global) -> Self
        ensures { result ≡ Seen [] }
    {
        OpenWant {
            want: Want::Seen(Looks::new(alloc)),
            more: String::new(alloc),
        }
    }

    /// Whether it has no line yet.
    pub fn is_new(&self) -> bool
        ensures { result ≡ is_new self.now }
    {
        self.want.is_new()
    }

    /// The want.
    pub fn into_want(self, alloc: Global) -> Mem<Want>
        ensures { IfOk result (λ want. want ≡ self) }
    {
        let OpenWant { want, more } = self;
        match want {
            Want::Event(event, text) => Ok(Want::Event(event, longer_text(alloc, text, &more)?)),
            Want::Seen(mut looks) => {
                looks.lengthen_last(alloc, &more)?;
                Ok(Want::Seen(looks))
            }
        }
    }

    /// The same want with this line.
    pub fn with_line(self, alloc: Global, nodes: u32, line: &str) -> Result<Self, Stop>
        ensures { Gives (λ want. want) result (want_line nodes line.now self) }
    {
        if self.is_gone_on_by(line) {
            self.gone_on(line)
        } else {
            self.with_wanted(alloc, nodes, line)
        }
    }

    /// Whether a line goes on with the text of the line before it.
    fn is_gone_on_by(&self, line: &str) -> bool
        ensures { result ≡ (goes_on line.now && not (is_new self.now)) }
    {
        goes_on(line) && !self.is_new()
    }

    /// The same want with a line that has a command.
    #[tactic(auto, using(crate::proofs::WantsLonger::longer_by_none))]
    fn with_wanted(self, alloc: Global, nodes: u32, line: &str) -> Result<Self, Stop>
        ensures { Gives (λ want. want) result (add_wanted nodes line.now self) }
    {
        let want = self.into_want(alloc)?;
        Ok(OpenWant {
            want: want.with_line(alloc, nodes, line)?,
            more: String::new(alloc),
        })
    }

    /// The same want, where the text of its last line goes on.
    #[tactic(auto, using(crate::proofs::WantsLonger::longer_twice))]
    fn gone_on(self, line: &str) -> Result<Self, Stop>
        ensures { Gives (λ want. want) result (go_on line.now self) }
    {
        if !self.may_go_on(line) {
            return Err(Stop::Rule(QuestionRule::BadWant));
        }
        let OpenWant { want, more } = self;
        let more = with_line_more(more, line)?;
        Ok(OpenWant { want, more })
    }

    fn may_go_on(&self, line: &str) -> bool
        ensures { result ≡ may_go_on self.now line.now }
    {
        match &self.want {
            Want::Event(event, _) => !(event.may_send() && names_message(line)),
            Want::Seen(_) => true,
        }
    }
}

impl Look {
    /// The same look, where its text goes on.
    pub(crate) fn lengthened(self, alloc: Global, more: &str) -> Mem<Look>
        ensures { IfOk result (λ look. look ≡ longer_look more.now self) }
    {
        let Look { node, sight, text } = self;
        let text = longer_text(alloc, text, more)?;
        Ok(Look { node, sight, text })
    }
}

/// Some lines, with one more.
#[tactic(auto, using(crate::proofs::WantsLonger::line_more))]
fn with_line_more(lines: String, line: &str) -> Mem<String>
    ensures { IfOk result (λ more. string_bytes more ≡ string_bytes lines ++ 10 ∷ line.now) }
{
    let mut lines = lines;
    lines.push_str("\n")?;
    lines.push_str(line)?;
    Ok(lines)
}

/// A text and what goes on with it.
fn longer_text(alloc: Global, text: Text, more: &str) -> Mem<Text>
    ensures { IfOk result (λ longer. longer ≡ text ++ more.now) }
{
    if more.is_empty() {
        return Ok(text);
    }
    let mut whole = String::from_str(alloc, text.as_str())?;
    whole.push_str(more)?;
    Text::new(alloc, whole)
}

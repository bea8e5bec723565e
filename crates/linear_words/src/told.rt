ghost use Rattle.std.specs.Prelude.{◌≡◌};
ghost use Rattle.linear_words.specs.Texts.{is_refusal};

use bson_doc::Doc;
use set_model::Refusal;

/// The result of a linear read.
#[derive(Drop)]
pub enum LinearTold {
    /// The document.
    Found(Doc),
    /// There is no such document.
    Missing,
    /// The node refused.
    Refused(Refusal),
    /// The set doesn't have the node.
    NoSuchNode,
}

impl LinearTold {
    /// Whether nothing was read.
    pub fn is_refusal(&self) -> bool
        ensures { result ≡ is_refusal self.now }
    {
        match self {
            LinearTold::Found(_) | LinearTold::Missing => false,
            LinearTold::Refused(_) | LinearTold::NoSuchNode => true,
        }
    }
}

use bson_doc::Doc;
use set_model::Refusal;

/// What a linear read answers.
#[derive(Drop)]
pub enum LinearAnswer {
    /// The document.
    Found(Doc),
    /// There is no such document.
    Missing,
    /// Why the node can't tell.
    Refused(Refusal),
}

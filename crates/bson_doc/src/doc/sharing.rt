// Fields that several documents share.
ghost use Rattle.std.specs.Prelude.{◌≡◌, ◌<◌, ◌+◌, IfOk, OnOk, OnErr, None};
ghost use Rattle.bson_doc.specs.Tree.{count, field, fields_from, found, with_field, with_first, with_first_set, with_set, IsNewTo};
ghost use Rattle.bson_doc.specs.Sound.{IsSoundField};
ghost use Rattle.bson_doc.specs.View.{tree_of};

use super::{Doc, Field, make_room, place_of};
use crate::Mem;
use std::alloc::Global;
use std::sync::Arc;

impl Doc {
    /// Appends the field that another document has at a place, so that both share it. No field here may
    /// have its name.
    pub fn append_from(&mut self, other: &Doc, place: usize) -> Mem<()>
        requires there { place < count other.now }
        requires new { IsNewTo self.old (fields_from place other.now) }
        ensures ok { OnOk result (self.new ≡ with_first self.old (fields_from place other.now)) }
        ensures err { OnErr result (self.new ≡ self.old) }
    {
        let field = other.shared_at(place)?;
        self.append_shared(field)?;
        Ok(())
    }

    /// Puts the field that another document has at a place under its name, so that both share it. An existing
    /// name keeps its place, and a new one comes last.
    pub fn set_from(&mut self, other: &Doc, place: usize) -> Mem<()>
        requires { place < count other.now }
        ensures ok { OnOk result (self.new ≡ with_first_set self.old (fields_from place other.now)) }
        ensures err { OnErr result (self.new ≡ self.old) }
    {
        let field = other.shared_at(place)?;
        self.put_shared(field)?;
        Ok(())
    }

    /// The field at a place, with one more owner.
    #[tactic(auto, using(crate::proofs::DocLemmas::doc_lemmas))]
    fn shared_at(&self, place: usize) -> Mem<Arc<Field, Global>>
        requires { place < count self.now }
        ensures at { IfOk result (λ f. fields_from place self.now
            ≡ field f.value.name (tree_of f.value.value) (fields_from (place + 1) self.now)) }
        ensures sound { IfOk result (λ f. IsSoundField f.value.name (tree_of f.value.value)) }
    {
        let field = Arc::try_clone(&self.fields[place])?;
        Ok(field)
    }

    /// Appends a field that other documents share.
    #[tactic(auto, using(crate::proofs::DocLemmas::doc_lemmas, crate::proofs::SoundLemmas::keeps_sound))]
    fn append_shared(&mut self, field: Arc<Field, Global>) -> Mem<()>
        requires sound { IsSoundField field.value.name (tree_of field.value.value) }
        requires new { found field.value.name self.old ≡ None }
        ensures ok { OnOk result
            (self.new ≡ with_field self.old field.value.name (tree_of field.value.value)) }
        ensures err { OnErr result (self.new ≡ self.old) }
    {
        let more = self.fields.len().max(1);
        make_room(&mut self.fields, more)?;
        self.fields.push_reserved(field);
        Ok(())
    }

    /// Puts a field that other documents share under its name.
    #[tactic(auto, using(crate::proofs::DocLemmas::doc_lemmas))]
    fn put_shared(&mut self, field: Arc<Field, Global>) -> Mem<()>
        requires { IsSoundField field.value.name (tree_of field.value.value) }
        ensures ok { OnOk result
            (self.new ≡ with_set self.old field.value.name (tree_of field.value.value)) }
        ensures err { OnErr result (self.new ≡ self.old) }
    {
        match place_of(&self.fields, field.name.as_str()) {
            Some(place) => {
                self.fields[place] = field;
                Ok(())
            }
            None => {
                self.append_shared(field)?;
                Ok(())
            }
        }
    }
}

// What is seen in cells, each look computed once a node.
ghost use Rattle.std.specs.Prelude.{◌≡◌, ◌<◌, length, IfOk, OnOk, Some, slice_get, unwrap_or};
ghost use Rattle.std.specs.List.{list_all};
ghost use Rattle.set_model.specs.Node.{Node as ModelNode};
ghost use Rattle.explore_words.specs.declared.question.Want.{Want as Wanted};
ghost use Rattle.explore_steps.specs.Causes.{is_met_at};
ghost use Rattle.explore_steps.specs.Keeping.{AreKept, HasLooks, IsGrown, IsLook};
ghost use Rattle.explore_steps.specs.Reaching.{IsPut};
ghost use Rattle.explore_steps.specs.Seeing.{is_met_in, is_seen_in};
ghost use Rattle.explore_steps.specs.Standing.{AreCome, IsSoundAt};
ghost use Rattle.explore_steps.specs.Tables.{tables_of};

use crate::laws::worlds_are_sound;
use crate::looking::is_look_met;
use crate::steps::Steps;
use bson_doc::Mem;
use explore_tables::number_of;
use explore_words::{Look, Question, Want};

impl Steps {
    /// Whether a want is met by what is seen in these cells.
    pub(crate) fn is_seen(&mut self, question: &Question, want: usize, cells: &[u32]) -> Mem<bool>
        requires put { IsPut question.now }
        requires kept { AreKept question.now self.old }
        requires want { want < length question.now.wants }
        requires come { AreCome (tables_of self.old) question.now cells.now }
        ensures grown { OnOk result (IsGrown question.now self.old self.new) }
        ensures seen { IfOk result (λ seen.
            (wanted : Wanted) → slice_get question.now.wants want ≡ Some wanted
            → seen ≡ is_seen_in (tables_of self.old) question.now.sizes.nodes cells.now wanted) }
    {
        let Want::Seen(looks) = &question.wants.as_slice()[want] else {
            return Ok(false);
        };
        for any in 0..cells.len() {
            if self.are_met(question, want, looks.as_slice(), any, cells)? {
                return Ok(true);
            }
        }
        Ok(false)
    }

    /// Whether all looks are met, with this node for any.
    fn are_met(
        &mut self,
        question: &Question,
        want: usize,
        looks: &[Look],
        any: usize,
        cells: &[u32],
    ) -> Mem<bool>
        requires put { IsPut question.now }
        requires kept { AreKept question.now self.old }
        requires looks { HasLooks question.now want looks.now }
        requires any { any < length cells.now }
        requires come { AreCome (tables_of self.old) question.now cells.now }
        ensures grown { OnOk result (IsGrown question.now self.old self.new) }
        ensures met { IfOk result (λ met.
            met
            ≡ list_all (is_met_in (tables_of self.old) question.now.sizes.nodes cells.now any) looks.now) }
    {
        worlds_are_sound();
        for (place, look) in looks.iter().enumerate() {
            let number = node_of(look, any);
            let node = self.node_number(cells[number]);
            if !self.is_met(question, want, number_of(place)?, look, node)? {
                return Ok(false);
            }
        }
        Ok(true)
    }

    /// Whether a look of a want is met at a node, by its number.
    fn is_met(
        &mut self,
        question: &Question,
        want: usize,
        place: u32,
        look: &Look,
        node: u32,
    ) -> Mem<bool>
        requires put { IsPut question.now }
        requires kept { AreKept question.now self.old }
        requires look { IsLook question.now want place look.now }
        requires node { IsSoundAt (tables_of self.old) node }
        ensures grown { OnOk result (IsGrown question.now self.old self.new) }
        ensures met { IfOk result (λ met. (at : ModelNode) → slice_get self.old.nodes node ≡ Some at
            → met ≡ is_met_at question.now.sizes.nodes at look.now) }
    {
        if let Some(met) = self.sights[want].find(place, node) {
            return Ok(met == 1);
        }
        let met = is_look_met(self.alloc, self.size, self.nodes.get(node), look)?;
        self.sights[want].put(place, node, u32::from(met))?;
        Ok(met)
    }
}

/// The node that a look is at, with this one for any.
fn node_of(look: &Look, any: usize) -> usize
    ensures { result ≡ unwrap_or look.now.node any }
{
    match look.node {
        Some(node) => node as usize,
        None => any,
    }
}

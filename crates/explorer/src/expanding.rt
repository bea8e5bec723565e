// What acts lead to from the states of a search.
ghost use Rattle.std.specs.Prelude.{◌≡◌, ◌≤◌, ◌<◌, ℕ, suc, length, IfOk, OnOk, List, Some, slice_get};
ghost use Rattle.explore_words.specs.declared.question.Question.{Question as AskedQuestion};
ghost use Rattle.question_laws.specs.Following.{LeadsTo, Standing};
ghost use Rattle.explore_steps.specs.Tables.{tables_of};
ghost use Rattle.explorer.specs.Exploring.{IsAsked};
ghost use Rattle.explorer.specs.Standings.{LeadsBy};
ghost use Rattle.explorer.specs.States.{AreStates, GoesFrom, GoesOn, HasGrown, IsHere, IsNext, IsOut, IsWithin, Lands, LeadsByAct, MayTry};

use crate::limits::{may_do, used_more};
use crate::search::{Here, Origin, Search, Stop, firsts, set_row};
use bson_doc::Mem;
use explore_laws::dead_messages_change_nothing;
use explore_steps::{Course, Doing, First};
use explore_words::Question;

impl Search {
    /// A state that is gone on from.
    fn here(&self, number: u32) -> Mem<Here>
        requires { (question : AskedQuestion) × (done : ℕ) × (more : ℕ) × (standings : List Standing)
            × AreStates question done more self.now standings × (number < length standings) }
        ensures number { IfOk result (λ here. here.number ≡ number) }
        ensures here { IfOk result (λ here. (question : AskedQuestion) (done more : ℕ)
            (standings : List Standing) (by : Standing) → AreStates question done more self.now standings
            → slice_get standings number ≡ Some by → IsHere question self.now here by) }
    {
        let row = self.states.row(number);
        let mut course = Course::new(self.alloc, self.notes_dead);
        course.stand(&row[2..], row[1] / 2, row[1] % 2 == 1)?;
        let firsts = firsts(self.alloc, &self.steps, &course)?;
        Ok(Here {
            number,
            course,
            used: row[0],
            firsts,
        })
    }

    /// Does all that may be done in these states.
    pub(crate) fn expand_all(
        &mut self,
        question: &Question,
        first: u32,
        end: u32,
    ) -> Mem<Option<Stop>>
        requires asked { (depth : ℕ) × IsAsked question.now depth }
        requires states { (done : ℕ) × (more : ℕ) × (standings : List Standing)
            × AreStates question.now done (suc more) self.old standings × (end ≤ length standings) }
        ensures grown { OnOk result (HasGrown self.old self.new) }
        ensures on { IfOk result (λ stop. (done more : ℕ) (standings : List Standing)
            → AreStates question.now done (suc more) self.old standings
            → GoesOn question.now done more self.new standings
            (IsNext question.now standings first end) stop) }
    {
        for number in first..end {
            if let Some(stop) = self.expand(question, number)? {
                return Ok(Some(stop));
            }
        }
        Ok(None)
    }

    /// Does all that may be done in a state.
    fn expand(&mut self, question: &Question, number: u32) -> Mem<Option<Stop>>
        requires asked { (depth : ℕ) × IsAsked question.now depth }
        requires states { (done : ℕ) × (more : ℕ) × (by : Standing) × (standings : List Standing)
            × AreStates question.now (suc done) more self.old standings
            × (slice_get standings number ≡ Some by)
            × IsWithin question.now self.old.origins.items done (suc more) number by }
        ensures grown { OnOk result (HasGrown self.old self.new) }
        ensures on { IfOk result (λ stop. (done more : ℕ) (by : Standing) (standings : List Standing)
            → AreStates question.now (suc done) more self.old standings → slice_get standings number ≡ Some by
            → IsWithin question.now self.old.origins.items done (suc more) number by
            → GoesOn question.now done more self.new standings (LeadsTo question.now by) stop) }
    {
        let here = self.here(number)?;
        for act in 0..question.acts.as_slice().len() {
            if let Some(stop) = self.try_act(question, &here, act as u32)? {
                return Ok(Some(stop));
            }
        }
        Ok(None)
    }

    /// Does an act, in each way that it may begin.
    fn try_act(&mut self, question: &Question, here: &Here, place: u32) -> Mem<Option<Stop>>
        requires asked { (depth : ℕ) × IsAsked question.now depth }
        requires place { place < length question.now.acts }
        requires from { (done : ℕ) × (more : ℕ) × (by : Standing) × (standings : List Standing)
            × GoesFrom question.now done more self.old here.now by standings }
        ensures grown { OnOk result (HasGrown self.old self.new) }
        ensures on { IfOk result (λ stop. (done more : ℕ) (by : Standing) (standings : List Standing)
            → GoesFrom question.now done more self.old here.now by standings
            → GoesOn question.now done more self.new standings (LeadsByAct question.now by place) stop) }
    {
        dead_messages_change_nothing();
        let act = &question.acts.as_slice()[place as usize];
        if !may_do(&self.used, act, place, here.used) {
            return Ok(None);
        }
        if !act.any_message {
            let doing = Doing {
                act: place,
                first: First::Nothing,
            };
            return self.attempt(question, here, doing);
        }
        for first in &here.firsts {
            let doing = Doing {
                act: place,
                first: *first,
            };
            if let Some(stop) = self.attempt(question, here, doing)? {
                return Ok(Some(stop));
            }
        }
        Ok(None)
    }

    /// Does one act, and adds the state that it leads to where that is new.
    fn attempt(&mut self, question: &Question, here: &Here, doing: Doing) -> Mem<Option<Stop>>
        requires asked { (depth : ℕ) × IsAsked question.now depth }
        requires from { (done : ℕ) × (more : ℕ) × (by : Standing) × (standings : List Standing)
            × GoesFrom question.now done more self.old here.now by standings
            × MayTry question.now (tables_of self.old.steps) by doing }
        ensures grown { OnOk result (HasGrown self.old self.new) }
        ensures on { IfOk result (λ stop. (done more : ℕ) (by : Standing) (standings : List Standing)
            → GoesFrom question.now done more self.old here.now by standings
            → MayTry question.now (tables_of self.old.steps) by doing
            → GoesOn question.now done more self.new standings
            (LeadsBy (tables_of self.old.steps) question.now by doing) stop) }
    {
        self.course
            .stand(&here.course.cells, here.course.met, here.course.dead)?;
        self.course.go(&mut self.steps, question, doing)?;
        let origin = Origin {
            from: here.number,
            doing,
        };
        if self.is_met(question) {
            return Ok(Some(Stop::Met(origin)));
        }
        if self.course.is_at(&here.course) {
            return Ok(None);
        }
        self.keep(question, here.used, origin)
    }

    /// Adds the state in which the course stands where that is new.
    fn keep(&mut self, question: &Question, used: u32, origin: Origin) -> Mem<Option<Stop>>
        requires asked { (depth : ℕ) × IsAsked question.now depth }
        requires out { (done : ℕ) × (more : ℕ) × (by : Standing) × (standings : List Standing)
            × IsOut question.now done more self.old used origin by standings }
        ensures grown { OnOk result (HasGrown self.old self.new) }
        ensures on { IfOk result (λ stop. (done more : ℕ) (by : Standing) (standings : List Standing)
            → IsOut question.now done more self.old used origin by standings
            → GoesOn question.now done more self.new standings
            (Lands (tables_of self.old.steps) question.now self.old.course by origin.doing.act) stop) }
    {
        let act = &question.acts.as_slice()[origin.doing.act as usize];
        let used = used_more(self.alloc, &mut self.used, act, origin.doing.act, used)?;
        set_row(&mut self.row, &self.course, used)?;
        if self.states.has(&self.row) {
            return Ok(None);
        }
        if self.states.len() >= self.most {
            return Ok(Some(Stop::Full));
        }
        self.origins.push(origin)?;
        self.states.add(&self.row)?;
        Ok(None)
    }
}

// The search: level by level, by acts, over states.
ghost use Rattle.std.specs.Prelude.{◌≡◌, ◌↔◌, ◌≤◌, ◌<◌, ◌+◌, ◌*◌, ◌∷◌, ◌++◌, ◌-◌, ◌^◌, [], ℕ, suc, length, map, IfOk, IsTrue, OnOk, if◌then◌else◌};
ghost use Rattle.std.specs.List.{list_any};
ghost use Rattle.explore_words.specs.declared.question.Question.{Question as AskedQuestion};
ghost use Rattle.question_laws.specs.Covered.{goes_on as goes_on_after};
ghost use Rattle.question_laws.specs.Following.{begun, start};
ghost use Rattle.explore_steps.specs.declared.doing.First.TheVariants.{Dead, Live};
ghost use Rattle.explore_steps.specs.Courses.{AreCells};
ghost use Rattle.explore_steps.specs.Tables.{tables_of};
ghost use Rattle.explorer.specs.Ending.{Ends};
ghost use Rattle.explorer.specs.Exploring.{Answers, IsAsked};
ghost use Rattle.explorer.specs.Replaying.{IsRunBegun};
ghost use Rattle.explorer.specs.States.{AreListed, AreStates, HasMet, IsBegun, IsFound, IsNew, IsPath};

use crate::answer::Answer;
use crate::replay::Run;
use bson_doc::Mem;
use checker_machine::Machine;
use explore_laws::dead_messages_change_nothing;
use explore_steps::{Course, Doing, First, Steps};
use explore_tables::{ListTable, RowTable};
use explore_words::{Act, Question};
use question_laws::{followers_are_runs, searches_are_whole};
use std::alloc::Global;

/// A search under way.
#[derive(Drop)]
pub(crate) struct Search {
    pub(crate) alloc: Global,
    pub(crate) steps: Steps,
    /// Limited acts that were done, each as often as it was.
    pub(crate) used: ListTable,
    /// The states that were reached, each a row: the number of the acts in `used`, the number of wants that
    /// are met with a bit for a dead message, and a cell for each node.
    pub(crate) states: RowTable,
    /// Where each state comes from.
    pub(crate) origins: Vec<Origin>,
    /// The most states.
    pub(crate) most: u32,
    /// Whether it is noted that a message is dead, as where an act goes on after the delivery of any message.
    pub(crate) notes_dead: bool,
    /// The act that is tried, and the numbers of the state that it leads to.
    pub(crate) course: Course,
    pub(crate) row: Vec<u32>,
}

/// The state that another comes from, and what leads from the one to the other. That of the first state says
/// nothing.
#[derive(Clone, Copy, Debug, PartialEq, Eq)]
pub(crate) struct Origin {
    pub(crate) from: u32,
    pub(crate) doing: Doing,
}

/// A state that is gone on from.
#[derive(Drop)]
pub(crate) struct Here {
    pub(crate) number: u32,
    pub(crate) course: Course,
    /// The number of the limited acts that were done.
    pub(crate) used: u32,
    /// What an act that takes any message may begin with.
    pub(crate) firsts: Vec<First>,
}

/// How a search ends.
#[derive(Clone, Copy, Debug, PartialEq, Eq)]
enum End {
    Found { acts: u32 },
    NoneAtAll { states: u32 },
    NoneWithin { states: u32 },
    Unknown { acts: u32, states: u32 },
}

/// Where a search stops.
#[derive(Clone, Copy, Debug, PartialEq, Eq)]
pub(crate) enum Stop {
    /// What is done here, in this state, meets all wants.
    Met(Origin),
    /// One state more is needed than there may be.
    Full,
}

/// Looks for a run of a question that meets its wants, with at most `depth` acts and over at most `states`
/// states. The only error is out of memory.
pub fn explore(alloc: Global, question: &Question, depth: u32, states: u32) -> Mem<Answer>
    requires question { IsAsked question.now depth }
    requires states { 1 ≤ states }
    ensures { IfOk result (λ answer. Answers question.now depth states answer) }
{
    let mut run = Run::begin(alloc, question)?;
    let end = search_all(alloc, question, depth, states, &mut run)?;
    Ok(answer(end, run))
}

/// What is said of a question whose search ends so, with this run where one was found.
fn answer(end: End, run: Run) -> Answer
    requires { (question : AskedQuestion) × (depth : ℕ) × (most : ℕ)
        × Ends question depth most run.events.items end }
    ensures { (question : AskedQuestion) (depth most : ℕ) → Ends question depth most run.events.items end
        → Answers question depth most result }
{
    match end {
        End::Found { acts } => Answer::Found {
            acts,
            events: run.events,
        },
        End::NoneAtAll { states } => Answer::NoneAtAll { states },
        End::NoneWithin { states } => Answer::NoneWithin { states },
        End::Unknown { acts, states } => Answer::Unknown { acts, states },
    }
}

/// Searches, and does the run that is found.
fn search_all(
    alloc: Global,
    question: &Question,
    depth: u32,
    states: u32,
    run: &mut Run,
) -> Mem<End>
    requires question { IsAsked question.now depth }
    requires states { 1 ≤ states }
    requires begun { IsRunBegun question.now run.old }
    ensures { IfOk result (Ends question.now depth states run.new.events.items) }
{
    let mut search = Search::new(alloc, question, states)?;
    search.go(question, depth, run)
}

/// Whether an act goes on after the delivery of any message.
fn goes_on(act: &Act) -> bool
    ensures { result ≡ goes_on_after act.now }
{
    act.any_message && !act.commands.as_slice().is_empty()
}

/// Whether one of a question's acts does.
fn any_goes_on(question: &Question) -> bool
    ensures { result ≡ list_any goes_on_after question.now.acts }
{
    question.acts.as_slice().iter().any(goes_on)
}

/// Writes the row of the state in which a course stands, after the acts of this number.
pub(crate) fn set_row(row: &mut Vec<u32>, course: &Course, used: u32) -> Mem<()>
    requires { course.now.met ≤ 100 }
    ensures { OnOk result (row.new.items
        ≡ used ∷ (course.now.met * 2 + (if course.now.dead then 1 else 0)) ∷ course.now.cells.items) }
{
    row.clear();
    row.push(used)?;
    row.push(course.met * 2 + u32::from(course.dead))?;
    row.extend_from_slice(&course.cells)?;
    Ok(())
}

/// What an act that takes any message may begin with in these cells.
pub(crate) fn firsts(alloc: Global, steps: &Steps, course: &Course) -> Mem<Vec<First>>
    requires { AreCells (tables_of steps.now) course.now.cells.items }
    ensures { IfOk result (λ firsts.
        AreListed (tables_of steps.now) course.now.cells.items course.now.dead firsts.items) }
{
    let mut firsts = Vec::new(alloc);
    for cell in &course.cells {
        add_live(&mut firsts, steps.live(*cell))?;
    }
    add_dead(&mut firsts, course.dead)?;
    Ok(firsts)
}

fn add_dead(firsts: &mut Vec<First>, dead: bool) -> Mem<()>
    ensures { OnOk result (firsts.new.items ≡ firsts.old.items ++ (if dead then Dead ∷ [] else [])) }
{
    if !dead {
        return Ok(());
    }
    firsts.push(First::Dead)?;
    Ok(())
}

fn add_live(firsts: &mut Vec<First>, live: &[u32]) -> Mem<()>
    ensures { OnOk result (firsts.new.items ≡ firsts.old.items ++ map Live live.now) }
{
    for number in live {
        firsts.push(First::Live(*number))?;
    }
    Ok(())
}

impl Search {
    fn new(alloc: Global, question: &Question, most: u32) -> Mem<Self>
        requires { question.now.sizes.nodes ≤ 50 }
        ensures { IfOk result (λ search. IsNew question.now most search) }
    {
        let notes_dead = any_goes_on(question);
        Ok(Search {
            alloc,
            steps: Steps::new(alloc, question)?,
            used: ListTable::new(alloc),
            states: RowTable::new(alloc, question.sizes.nodes as usize + 2),
            origins: Vec::new(alloc),
            most,
            notes_dead,
            course: Course::new(alloc, notes_dead),
            row: Vec::new(alloc),
        })
    }

    /// Adds the first state, and says whether all wants are met in it.
    fn begin(&mut self, question: &Question, machine: &Machine) -> Mem<bool>
        requires asked { (depth : ℕ) × IsAsked question.now depth }
        requires most { 1 ≤ self.old.most }
        requires begun { machine.now ≡ begun question.now }
        requires new { IsNew question.now self.old.most self.old }
        ensures most { self.new.most ≡ self.old.most }
        ensures begun { IfOk result (λ met. (depth : ℕ) → IsAsked question.now depth
            → IsBegun question.now depth self.new met) }
    {
        self.course.begin(&mut self.steps, question, machine)?;
        self.course.see(&mut self.steps, question)?;
        let used = self.used.place(Vec::new(self.alloc))?;
        set_row(&mut self.row, &self.course, used)?;
        let nothing = Origin {
            from: 0,
            doing: Doing {
                act: 0,
                first: First::Nothing,
            },
        };
        self.origins.push(nothing)?;
        self.states.add(&self.row)?;
        Ok(self.is_met(question))
    }

    /// Searches, and does the run that is found, from its beginning on.
    fn go(&mut self, question: &Question, depth: u32, run: &mut Run) -> Mem<End>
        requires question { IsAsked question.now depth }
        requires most { 1 ≤ self.old.most }
        requires new { IsNew question.now self.old.most self.old }
        requires begun { IsRunBegun question.now run.old }
        ensures { IfOk result (Ends question.now depth self.old.most run.new.events.items) }
    {
        followers_are_runs();
        if self.begin(question, &run.machine)? {
            return Ok(End::Found { acts: 0 });
        }
        self.levels(question, depth, run)
    }

    /// Goes from level to level.
    fn levels(&mut self, question: &Question, depth: u32, run: &mut Run) -> Mem<End>
        requires question { IsAsked question.now depth }
        requires states { AreStates question.now 0 depth self.old (start question.now ∷ []) }
        requires begun { IsRunBegun question.now run.old }
        ensures { IfOk result (Ends question.now depth self.old.most run.new.events.items) }
    {
        searches_are_whole();
        followers_are_runs();
        let mut first = 0;
        for level in 0..depth {
            let end = self.states.len();
            match self.expand_all(question, first, end)? {
                Some(Stop::Met(last)) => {
                    let acts = self.found(question, run, last)?;
                    return Ok(End::Found { acts });
                }
                Some(Stop::Full) => {
                    return Ok(End::Unknown {
                        acts: level,
                        states: end,
                    });
                }
                None => {}
            }
            if self.states.len() == end {
                return Ok(End::NoneAtAll { states: end });
            }
            first = end;
        }
        Ok(End::NoneWithin {
            states: self.states.len(),
        })
    }

    pub(crate) fn is_met(&self, question: &Question) -> bool
        ensures { IsTrue result ↔ self.now.course.met ≡ length question.now.wants }
    {
        self.course.met as usize == question.wants.as_slice().len()
    }

    /// Does the run that was found: what leads to a state, and then one act more. It says how many acts these
    /// are.
    fn found(&self, question: &Question, run: &mut Run, last: Origin) -> Mem<u32>
        requires asked { (depth : ℕ) × IsAsked question.now depth }
        requires met { (done : ℕ) × (done < 2 ^ 32 - 1) × HasMet question.now done self.now last }
        requires begun { IsRunBegun question.now run.old }
        ensures { IfOk result (λ acts. (done : ℕ) → HasMet question.now done self.now last
            → IsFound question.now (suc done) acts run.new.events.items) }
    {
        dead_messages_change_nothing();
        let doings = self.path(last)?;
        for doing in &doings {
            run.go(question, &self.steps, *doing)?;
        }
        Ok(doings.len() as u32)
    }

    /// What leads to a state, and then one act more.
    fn path(&self, last: Origin) -> Mem<Vec<Doing>>
        requires { (question : AskedQuestion) × (done : ℕ) × HasMet question done self.now last }
        ensures { IfOk result (λ doings. (question : AskedQuestion) (done : ℕ)
            → HasMet question done self.now last
            → IsPath question (suc done) (tables_of self.now.steps) doings.items) }
    {
        let mut doings = Vec::new(self.alloc);
        doings.push(last.doing)?;
        let mut state = last.from;
        while state > 0 {
            let origin = self.origins[state as usize];
            doings.push(origin.doing)?;
            state = origin.from;
        }
        doings.reverse();
        Ok(doings)
    }
}

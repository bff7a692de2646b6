// Finds a model of clauses that has the assumptions, or that there is none; again and again on the same
// clauses, with what was learned. It ends for any clauses and any memory, and no answer rests on what
// it tries first, what it remembers or forgets, or who watches which clause.
#![tactic(auto)]

ghost use Rattle.std.specs.Prelude.{◌≡◌, ◌+◌, ◌/◌, ◌<◌, ◌≤◌, true, false, ◌⊎◌, [], ◌∷◌, length, OnErr};
ghost use Rattle.clauses.specs.Formulas.{Models};
ghost use Rattle.clauses.specs.Stores.{Fits, Added};
ghost use Rattle.trail.specs.Views.{variables_of, formula_of};
ghost use Rattle.trail.specs.Trails.{SameClauses, NoneModels, Rooted};
ghost use Rattle.solver.specs.Values.{assignment};
ghost use Rattle.solver.specs.Assumptions.{KnownAll, HoldsAll, NoneWith};

use conflicts::{Learner, flip_last};
use propagation::{Outcome, Search};
use std::marker::Model;
use trail::NoModel;

// Which variable is next, and whether the values are a model.
mod values;
// Assumptions, and deciding on.
mod assumptions;
// When to begin anew, and when to forget.
mod pace;
// Forgetting.
mod reduction;

pub use assumptions::Guide;
use assumptions::{Step, decide_on};
pub use pace::Pace;
use reduction::reduce;
use values::is_model;

// A learner, and when it begins anew and forgets.
#[derive(Drop)]
pub struct Solver<'a> {
    pub learner: Learner<'a>,
    pub pace: Pace,
}

impl<'a> Model for Solver<'a> {
    ghost use Rattle.solver.specs.Views.{SolverView};

    ghost Value = { SolverView };

    ghost use Rattle.solver.specs.Keeping.{solver_view};

    ghost view = { solver_view };
}

// Begins anew, and forgets where memory is full.
fn start_again(learner: &mut Learner, pace: &mut Pace, full: bool) -> usize
    ensures clauses { SameClauses learner.old.search.trail learner.new.search.trail }
    ensures rooted { Rooted learner.new.search.trail.marks learner.new.search.trail.len }
    ensures causes { learner.new.search.causes ≡ learner.old.search.causes }
    ensures analysis { learner.new.analysis ≡ learner.old.analysis }
    ensures decided { learner.new.decided ≡ learner.old.decided }
    ensures phases { length learner.new.phases.now ≡ length learner.old.phases.now }
{
    let root = learner.begin_anew();
    pace.begin_anew();
    learner.note_restart();
    if !full {
        return root;
    }
    learner.note_reduction();
    pace.note_forgotten(learner.counters.unkept);
    reduce(learner);
    root
}

// Looks at a clause of the problem for the first time, given by its number: it implies a literal or is
// watched from now on.
fn enter(search: &mut Search, number: u32) -> Result<(), NoModel>
    requires number { number < length search.old.trail.problem.formula }
    requires low { number < 4294967295 }
    ensures clauses { SameClauses search.old.trail search.new.trail }
    ensures none { OnErr result (NoneModels (formula_of search.old.trail)) }
    ensures learned { search.new.learned ≡ search.old.learned }
{
    let clause = search.trail().problem().clause(number as usize);
    let (Some(one), Some(other)) = (clause.first(), clause.last()) else {
        return Err(NoModel);
    };
    let one = *one;
    let other = *other;
    match search.examine(number, one, 0) {
        Outcome::Conflict => return flip_last(search),
        Outcome::Moves(literal) => search.attach(number, one, literal),
        Outcome::Stays => search.attach(number, one, other),
    }
    Ok(())
}

// Looks at all clauses of the problem.
fn enter_all(search: &mut Search) -> Result<(), NoModel>
    ensures clauses { SameClauses search.old.trail search.new.trail }
    ensures none { OnErr result (NoneModels (formula_of search.old.trail)) }
    ensures learned { search.new.learned ≡ search.old.learned }
{
    let base = search.trail().problem().len();
    // by number, by which a clause is watched
    for number in 0..base.min(0x4000_0000) {
        enter(search, number as u32)?;
    }
    Ok(())
}

// Fixes a literal for good, where nothing is decided.
fn fix_unit(search: &mut Search, literal: u32) -> Result<(), NoModel>
    requires rooted { Rooted search.old.trail.marks search.old.trail.len }
    requires known { literal / 2 < variables_of search.old.trail }
    requires fits { Fits search.old.trail.units 1 }
    ensures added { Added (literal ∷ []) search.old.trail.units search.new.trail.units }
    ensures problem { search.new.trail.problem ≡ search.old.trail.problem }
    ensures none { OnErr result (NoneModels (formula_of search.new.trail)) }
    ensures watches { search.new.watches ≡ search.old.watches }
    ensures learned { search.new.learned ≡ search.old.learned }
{
    search.trail().keeps();
    let _ = search.add(literal);
    if search.trail().fails(literal) {
        return Err(NoModel);
    }
    if search.trail().holds(literal) {
        return Ok(());
    }
    search.imply(literal, None, 0);
    Ok(())
}

// The search under assumptions, which `solve_under` promises; with the solver's pace, or with another.
fn seek(
    learner: &mut Learner,
    pace: &mut Pace,
    assumptions: &[u32],
    firm: usize,
    guide: Guide,
) -> bool
    requires known { KnownAll (variables_of learner.old.search.trail) assumptions.now }
    requires firm { firm ≤ length assumptions.now }
    ensures clauses { SameClauses learner.old.search.trail learner.new.search.trail }
    ensures model { result ≡ true → Models (formula_of learner.new.search.trail) (assignment learner.new.search.trail.values) }
    ensures holds { result ≡ true → HoldsAll (assignment learner.new.search.trail.values) assumptions.now firm }
    ensures wished { result ≡ true → HoldsAll (assignment learner.new.search.trail.values) assumptions.now (length assumptions.now) ⊎ NoneWith (formula_of learner.new.search.trail) assumptions.now (length assumptions.now) }
    ensures none { result ≡ false → NoneWith (formula_of learner.new.search.trail) assumptions.now firm }
    ensures decided { learner.new.decided ≡ learner.old.decided }
    ensures phases { length learner.new.phases.now ≡ length learner.old.phases.now }
{
    let root = learner.begin_anew();
    let mut start = pace.start.min(root);
    let mut level: u32 = 0;
    let mut restarts: u32 = u32::MAX;
    let mut force = assumptions.len();
    loop {
        if let Some(conflict) = learner.propagate(start, level) {
            if learner.learn(level, conflict).is_err() {
                return false;
            }
            pace.note_conflict();
            level = learner.search.level_before();
            start = learner.search.trail().len().saturating_sub(1);
            continue;
        }
        let full = pace.is_full(learner.search.learned().len(), learner.counters.unkept);
        if (full | pace.is_over()) && restarts > 0 {
            restarts -= 1;
            start = start_again(learner, pace, full);
            level = 0;
            continue;
        }
        match decide_on(learner, assumptions, force, guide) {
            Step::Refuted => {
                if force == firm {
                    pace.start = learner.search.trail().len();
                    return false;
                }
                force = firm;
                start = learner.begin_anew();
                level = 0;
                continue;
            }
            Step::Decided => {
                learner.search.keeps();
                learner.search.trail().keeps();
                start = learner.search.trail().len().saturating_sub(1);
                level = learner.search.trail().len() as u32;
                continue;
            }
            Step::Complete => {}
        }
        let found = is_model(learner.search.trail());
        if found {
            pace.start = learner.search.trail().len();
            return true;
        }
        if learner.turn_round().is_err() {
            return false;
        }
        level = learner.search.level_before();
        start = learner.search.trail().len().saturating_sub(1);
    }
}

impl Solver<'_> {
    // Looks at the clauses of the problem: what they imply without a decision is put on the trail, and
    // they are watched.
    pub fn begin(&mut self) -> Result<(), NoModel>
        ensures clauses { SameClauses self.old.trail self.new.trail }
        ensures none { OnErr result (NoneModels (formula_of self.old.trail)) }
        ensures learned { self.new.learned ≡ self.old.learned }
        ensures analysis { self.new.analysis ≡ self.old.analysis }
        ensures uses { self.new.uses ≡ self.old.uses }
        ensures decided { self.new.decided ≡ self.old.decided }
        ensures order { self.new.order ≡ self.old.order }
        ensures phases { self.new.phases ≡ self.old.phases }
        ensures counters { self.new.counters ≡ self.old.counters }
        ensures pace { self.new.pace ≡ self.old.pace }
    {
        let learner = &mut self.learner;
        enter_all(&mut learner.search)
    }

    // Fixes a literal for good: the clause of it alone joins the clauses, and it holds without a decision.
    pub fn fix(&mut self, literal: u32) -> Result<(), NoModel>
        requires known { literal / 2 < variables_of self.old.trail }
        requires fits { Fits self.old.trail.units 1 }
        ensures added { Added (literal ∷ []) self.old.trail.units self.new.trail.units }
        ensures problem { self.new.trail.problem ≡ self.old.trail.problem }
        ensures none { OnErr result (NoneModels (formula_of self.new.trail)) }
        ensures watches { self.new.watches ≡ self.old.watches }
        ensures learned { self.new.learned ≡ self.old.learned }
        ensures analysis { self.new.analysis ≡ self.old.analysis }
        ensures uses { self.new.uses ≡ self.old.uses }
        ensures decided { self.new.decided ≡ self.old.decided }
        ensures counters { self.new.counters ≡ self.old.counters }
        ensures phases { length self.new.phases.now ≡ length self.old.phases.now }
    {
        let learner = &mut self.learner;
        let root = learner.begin_anew();
        fix_unit(&mut learner.search, literal)?;
        self.pace.start = self.pace.start.min(root);
        Ok(())
    }

    // Whether the clauses have a model in which the first so many assumptions are true; the values are
    // one then. The other assumptions are wishes: they are true in that model if they are all true in
    // some.
    pub fn solve_under(&mut self, assumptions: &[u32], firm: usize, guide: Guide) -> bool
        requires known { KnownAll (variables_of self.old.trail) assumptions.now }
        requires firm { firm ≤ length assumptions.now }
        ensures clauses { SameClauses self.old.trail self.new.trail }
        ensures model { result ≡ true → Models (formula_of self.new.trail) (assignment self.new.trail.values) }
        ensures holds { result ≡ true → HoldsAll (assignment self.new.trail.values) assumptions.now firm }
        ensures wished { result ≡ true → HoldsAll (assignment self.new.trail.values) assumptions.now (length assumptions.now) ⊎ NoneWith (formula_of self.new.trail) assumptions.now (length assumptions.now) }
        ensures none { result ≡ false → NoneWith (formula_of self.new.trail) assumptions.now firm }
        ensures decided { self.new.decided ≡ self.old.decided }
        ensures phases { length self.new.phases.now ≡ length self.old.phases.now }
    {
        seek(&mut self.learner, &mut self.pace, assumptions, firm, guide)
    }

    // Writes the values of the trail.
    pub fn hold(&self, values: &mut [u32])
        requires { length values.old ≡ variables_of self.now.trail }
        ensures { values.new ≡ self.now.trail.values }
    {
        let learner = &self.learner;
        let trail = learner.search.trail();
        trail.keeps();
        values.copy_from_slice(trail.values());
    }

    // Whether the clauses have a model; the values are one then. Nothing that is learned is forgotten.
    pub fn solve(&mut self) -> bool
        ensures clauses { SameClauses self.old.trail self.new.trail }
        ensures model { result ≡ true → Models (formula_of self.new.trail) (assignment self.new.trail.values) }
        ensures none { result ≡ false → NoneModels (formula_of self.new.trail) }
        ensures decided { self.new.decided ≡ self.old.decided }
        ensures phases { length self.new.phases.now ≡ length self.old.phases.now }
    {
        if self.begin().is_err() {
            return false;
        }
        let mut pace = Pace::endless();
        seek(&mut self.learner, &mut pace, &[], 0, Guide::Activity)
    }
}

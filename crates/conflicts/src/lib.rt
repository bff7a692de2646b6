// What a conflict teaches: a clause is learned from it, the trail goes back to where the clause
// implies a literal, and the clause is kept and watched. Where analysis finds no clause, the one that
// refuses all decisions serves: it turns the last decision round.
#![tactic(auto)]

ghost use Rattle.std.specs.Prelude.{◌≡◌, ℕ, ◌+◌, ◌/◌, ◌<◌, ◌≤◌, min, length, IfSome, OnOk, OnErr};
ghost use Rattle.std.specs.Option.{ForSome};
ghost use Rattle.clauses.specs.Stores.{Known, Follows};
ghost use Rattle.trail.specs.Views.{variables_of as variables_on};
ghost use Rattle.trail.specs.Trails.{Jammed, Later, Falls, NoneModels, Rooted};
ghost use Rattle.propagation.specs.Views.{variables_of, formula_of, numbers_of};
ghost use Rattle.propagation.specs.Searching.{Same, Onward};
ghost use Rattle.analysis.specs.Views.{clause_of, SameMarks};
ghost use Rattle.analysis.specs.Marking.{Fits};
ghost use Rattle.learning.specs.Turning.{Taught};
ghost use Rattle.conflicts.specs.Learning.{Turned, TrailAlone};

use analysis::Analysis;
use clauses::negated;
use learning::{Turn, Uses, decision_above, go_back};
use order::Order;
use propagation::Search;
use std::marker::Model;
use trail::{NoModel, Trail};

// How often what was done: conflicts, decisions, fresh starts and times that clauses were forgotten;
// and how often analysis found no clause, or memory had no room for one.
#[derive(Clone, Copy, Default)]
pub struct Counters {
    pub conflicts: u64,
    pub decisions: u64,
    pub restarts: u64,
    pub reductions: u64,
    pub refusals: u64,
    pub unkept: u64,
}

// A search that learns, with what steers it: when clauses took part, which variables are active, and
// the values that they had, which are tried first (1 true, 0 false). The first so many variables are
// decided first.
#[derive(Drop)]
pub struct Learner<'a> {
    pub search: Search<'a>,
    pub analysis: Analysis<'a>,
    pub uses: Uses<'a>,
    pub order: Order<'a>,
    pub phases: &'a mut [u32],
    pub decided: usize,
    pub counters: Counters,
}

impl<'a> Model for Learner<'a> {
    ghost use Rattle.conflicts.specs.Views.{LearnerView};

    ghost Value = { LearnerView };

    ghost use Rattle.conflicts.specs.Keeping.{learner_view, IsLearner};

    ghost view = { learner_view };

    ghost invariant = { IsLearner };
}

// Gives the variables from a place of the trail on back to the order, and notes their values, as far as
// there is room for them.
fn release(trail: &Trail, order: &mut Order, phases: &mut [u32], decided: usize, from: usize) {
    let known = decided.min(order.variables());
    // by place, since the trail shows its literals one at a time
    for place in from..trail.len() {
        let literal = trail.literal(place);
        let variable = (literal / 2) as usize;
        if let Some(phase) = phases.get_mut(variable) {
            *phase = 1 - literal % 2;
        }
        if variable < known {
            order.insert(literal / 2);
        }
    }
}

// Makes the variables that a conflict met more active.
fn bump_met(analysis: &Analysis, order: &mut Order) {
    for variable in analysis.met() {
        if (*variable as usize) < order.variables() {
            order.bump(*variable);
        }
    }
    order.decay();
}

// Notes that the clause of a conflict takes part, and those that implied what the conflict met.
fn note_uses(search: &Search, analysis: &Analysis, uses: &mut Uses, conflict: u32)
    requires { Fits analysis.now search.now }
{
    let base = search.trail().problem().len();
    uses.tick();
    uses.note(conflict, base);
    for variable in analysis.met() {
        if let Some(reason) = search.causes().reason(*variable) {
            uses.note(reason, base);
        }
    }
}

// The literal of a clause that stands highest on the trail, but for one; or that one.
fn highest(search: &Search, clause: &[u32], literal: u32) -> u32
    requires { Known (variables_of search.now) clause.now }
{
    let mut found = literal;
    let mut place = 0;
    for other in clause {
        let standing = search.causes().place(*other / 2);
        if *other != literal && (found == literal || standing > place) {
            found = *other;
            place = standing;
        }
    }
    found
}

// Keeps a clause that follows and has it watched. Its number, or None where there is no room.
fn watch_kept(search: &mut Search, clause: &[u32], one: u32, other: u32) -> Option<u32>
    requires { Follows (formula_of search.old) clause.now }
    ensures trail { search.new.trail ≡ search.old.trail }
    ensures causes { search.new.causes ≡ search.old.causes }
    ensures small { ForSome result (λ number. number < 4294967295) }
{
    let base = search.trail().problem().len();
    let count = search.learned().len();
    if base >= 0x4000_0000 || count >= 0x3fff_ffff {
        return None;
    }
    search.keep(clause).ok()?;
    let number = (base + count) as u32;
    search.attach(number, one, other);
    Some(number)
}

// Turns the last decision round, and learns nothing.
pub fn flip_last(search: &mut Search) -> Result<(), NoModel>
    requires { Jammed search.old.trail }
    ensures same { Same search.old search.new }
    ensures later { Later search.old.trail search.new.trail }
    ensures less { OnOk result (Falls search.old.trail search.new.trail) }
    ensures none { OnErr result (NoneModels (formula_of search.old)) }
    ensures watches { search.new.watches ≡ search.old.watches }
{
    search.flip()?;
    search.settle(None);
    Ok(())
}

impl Learner<'_> {
    // Has everything implied that the literals from a place of the trail on imply. The number of a clause
    // that is false, if there is one.
    pub fn propagate(&mut self, start: usize, level: u32) -> Option<u32>
        ensures onward { Onward self.old.search self.new.search }
        ensures conflict { IfSome result (λ clause. Jammed self.new.search.trail × (clause < numbers_of self.new.search)) }
        ensures analysis { self.new.analysis ≡ self.old.analysis }
        ensures uses { self.new.uses ≡ self.old.uses }
        ensures decided { self.new.decided ≡ self.old.decided }
        ensures order { self.new.order ≡ self.old.order }
        ensures phases { self.new.phases ≡ self.old.phases }
        ensures counters { self.new.counters ≡ self.old.counters }
    {
        self.search.propagate(start, level)
    }

    // Counts a decision, a fresh start, and a time that clauses were forgotten: three of one line each, since
    // one for all would have to be told which counter it is about.
    pub fn note_decision(&mut self)
        ensures { self.new ≡ record self.old { counters = record self.old.counters { decisions = min (self.old.counters.decisions + 1) 18446744073709551615 } } }
    {
        self.counters.decisions = self.counters.decisions.saturating_add(1);
    }

    pub fn note_restart(&mut self)
        ensures { self.new ≡ record self.old { counters = record self.old.counters { restarts = min (self.old.counters.restarts + 1) 18446744073709551615 } } }
    {
        self.counters.restarts = self.counters.restarts.saturating_add(1);
    }

    pub fn note_reduction(&mut self)
        ensures { self.new ≡ record self.old { counters = record self.old.counters { reductions = min (self.old.counters.reductions + 1) 18446744073709551615 } } }
    {
        self.counters.reductions = self.counters.reductions.saturating_add(1);
    }

    // Goes back by the clause of the analysis, which follows, and keeps it.
    fn go_on(&mut self, place: usize) -> Result<(), NoModel>
        requires jammed { Jammed self.old.search.trail }
        requires taught { Taught self.old.search (clause_of self.old.analysis) }
        requires place { place < self.old.search.trail.len }
        ensures turned { Turned self.old.search self.new.search }
        ensures less { OnOk result (Falls self.old.search.trail self.new.search.trail) }
        ensures none { OnErr result (NoneModels (formula_of self.old.search)) }
        ensures analysis { self.new.analysis ≡ self.old.analysis }
        ensures uses { self.new.uses ≡ self.old.uses }
        ensures decided { self.new.decided ≡ self.old.decided }
        ensures phases { length self.new.phases.now ≡ length self.old.phases.now }
    {
        let literal = negated(self.search.trail().literal(place));
        let clause = self.analysis.clause();
        let other = highest(&self.search, clause, literal);
        let decision = decision_above(&self.search, clause, literal);
        release(
            self.search.trail(),
            &mut self.order,
            self.phases,
            self.decided,
            decision,
        );
        match go_back(&mut self.search, clause, decision, place)? {
            Turn::Flip => {
                self.search.settle(None);
            }
            Turn::Jump => {
                let reason = watch_kept(&mut self.search, clause, literal, other);
                let lost = reason.is_none();
                self.counters.unkept = self.counters.unkept.saturating_add(lost as u64);
                self.search.settle(reason);
            }
        }
        Ok(())
    }

    // Turns the last decision round, by the clause that refuses all of them.
    pub fn turn_round(&mut self) -> Result<(), NoModel>
        requires { Jammed self.old.search.trail }
        ensures turned { Turned self.old.search self.new.search }
        ensures less { OnOk result (Falls self.old.search.trail self.new.search.trail) }
        ensures none { OnErr result (NoneModels (formula_of self.old.search)) }
        ensures marks { SameMarks self.old.analysis self.new.analysis }
        ensures uses { self.new.uses ≡ self.old.uses }
        ensures decided { self.new.decided ≡ self.old.decided }
        ensures phases { length self.new.phases.now ≡ length self.old.phases.now }
    {
        let Some(last) = self.analysis.refuse(&self.search) else {
            return flip_last(&mut self.search);
        };
        self.counters.refusals = self.counters.refusals.saturating_add(1);
        self.go_on(last)
    }

    // Derives the clause that a conflict teaches. The place on the trail of the literal that it turns
    // round, or None where a step was not seen to be right.
    fn derive(&mut self, level: u32, conflict: u32) -> Option<usize>
        ensures search { self.new.search ≡ self.old.search }
        ensures decided { self.new.decided ≡ self.old.decided }
        ensures clause { IfSome result (λ place. Taught self.new.search (clause_of self.new.analysis) × (place < self.new.search.trail.len)) }
        ensures phases { self.new.phases ≡ self.old.phases }
    {
        self.analysis.clear();
        let place = self.analysis.analyze(&self.search, level, conflict)?;
        bump_met(&self.analysis, &mut self.order);
        note_uses(&self.search, &self.analysis, &mut self.uses, conflict);
        self.analysis.minimize(&self.search)?;
        self.analysis.collect(&self.search)?;
        Some(place)
    }

    // Learns from a clause that is false, given by its number.
    pub fn learn(&mut self, level: u32, conflict: u32) -> Result<(), NoModel>
        requires { Jammed self.old.search.trail }
        ensures turned { Turned self.old.search self.new.search }
        ensures less { OnOk result (Falls self.old.search.trail self.new.search.trail) }
        ensures none { OnErr result (NoneModels (formula_of self.old.search)) }
        ensures decided { self.new.decided ≡ self.old.decided }
        ensures phases { length self.new.phases.now ≡ length self.old.phases.now }
    {
        self.counters.conflicts = self.counters.conflicts.saturating_add(1);
        match self.derive(level, conflict) {
            Some(place) => self.go_on(place),
            None => self.turn_round(),
        }
    }

    // Goes back to what holds without a decision. How many literals those are.
    pub fn begin_anew(&mut self) -> usize
        ensures same { Same self.old.search self.new.search }
        ensures rooted { Rooted self.new.search.trail.marks self.new.search.trail.len }
        ensures len { self.new.search.trail.len ≡ result }
        ensures causes { self.new.search.causes ≡ self.old.search.causes }
        ensures alone { TrailAlone self.old self.new }
        ensures counters { self.new.counters ≡ self.old.counters }
        ensures phases { length self.new.phases.now ≡ length self.old.phases.now }
    {
        let root = self.search.trail().first_decision();
        release(
            self.search.trail(),
            &mut self.order,
            self.phases,
            self.decided,
            root,
        );
        self.search.pop_to(root);
        root
    }
}

// Deciding on: the assumptions first, in their order, then what the order of decisions says. So each
// decision is an assumption or comes after all of them, and where one is false, no model has them all.
ghost use Rattle.std.specs.Prelude.{◌≡◌, ℕ, ◌/◌, ◌<◌, ◌≤◌, length, slice_index};
ghost use Rattle.trail.specs.Views.{variables_of};
ghost use Rattle.trail.specs.Trails.{AssumedT, Good};
ghost use Rattle.conflicts.specs.Learning.{TrailAlone};
ghost use Rattle.solver.specs.Assumptions.{KnownAll, WantedSays, LiteralSays, NextDecision, DecidedMore, StepSays};

use crate::values::{next_variable, open_variable};
use conflicts::Learner;
use propagation::Search;

// The first of the assumptions in force that is not true: one is false, one has no value yet, or there is none such.
#[derive(Clone, Copy)]
pub enum Wanted {
    Refuted,
    Open(u32),
    Settled,
}

// What became of deciding on: a decision more; an assumption is false; or nothing is left to decide.
#[derive(Clone, Copy)]
pub enum Step {
    Decided,
    Refuted,
    Complete,
}

// By what the next variable is chosen: by activity, or in the sequence of variables, false first. A closure
// for it would be a type parameter of all that solve, for two that there are.
#[derive(Clone, Copy)]
pub enum Guide {
    Activity,
    Sequence,
}

fn next_assumption(learner: &Learner, assumptions: &[u32], count: usize) -> Wanted
    requires known { KnownAll (variables_of learner.now.search.trail) assumptions.now }
    requires count { count ≤ length assumptions.now }
    ensures says { WantedSays (variables_of learner.now.search.trail) learner.now.search.trail.values assumptions.now count result }
    ensures good { Good learner.now.search.trail }
{
    let trail = learner.search.trail();
    trail.keeps();
    for literal in &assumptions[..count] {
        if trail.fails(*literal) {
            return Wanted::Refuted;
        }
        if !trail.holds(*literal) {
            return Wanted::Open(*literal);
        }
    }
    Wanted::Settled
}

// The literal to decide next.
fn next_literal(learner: &mut Learner, guide: Guide) -> Option<u32>
    ensures search { learner.new.search ≡ learner.old.search }
    ensures analysis { learner.new.analysis ≡ learner.old.analysis }
    ensures uses { learner.new.uses ≡ learner.old.uses }
    ensures decided { learner.new.decided ≡ learner.old.decided }
    ensures counters { learner.new.counters ≡ learner.old.counters }
    ensures open { LiteralSays (variables_of learner.new.search.trail) learner.new.search.trail.values result }
    ensures phases { length learner.new.phases.now ≡ length learner.old.phases.now }
{
    learner.search.keeps();
    let trail = learner.search.trail();
    if let Guide::Sequence = guide {
        if let Some(variable) = open_variable(trail, learner.decided.min(trail.variables())) {
            return Some(2 * variable + 1);
        }
    }
    let variable = next_variable(trail, &mut learner.order)?;
    if learner.phases.get(variable as usize) == Some(&1) {
        Some(2 * variable)
    } else {
        Some(2 * variable + 1)
    }
}

// Decides a literal that is an assumption, or comes after all of them.
fn put_decision(search: &mut Search, assumptions: &[u32], count: usize, literal: u32)
    requires assumed { AssumedT assumptions.now count search.old.trail }
    requires known { literal / 2 < variables_of search.old.trail }
    requires free { slice_index search.old.trail.values (literal / 2) ≡ 0 }
    requires order { NextDecision assumptions.now count search.old.trail.literals search.old.trail.len literal }
    ensures more { DecidedMore assumptions.now count search.old.trail search.new.trail }
    ensures watches { search.new.watches ≡ search.old.watches }
    ensures learned { search.new.learned ≡ search.old.learned }
{
    search.trail().keeps();
    search.decide(literal);
}

// The same of a learner, which counts it.
fn put_on(learner: &mut Learner, assumptions: &[u32], count: usize, literal: u32) -> Step
    requires assumed { AssumedT assumptions.now count learner.old.search.trail }
    requires known { literal / 2 < variables_of learner.old.search.trail }
    requires free { slice_index learner.old.search.trail.values (literal / 2) ≡ 0 }
    requires order { NextDecision assumptions.now count learner.old.search.trail.literals learner.old.search.trail.len literal }
    ensures says { StepSays assumptions.now count learner.old.search.trail learner.new.search.trail result }
    ensures alone { TrailAlone learner.old learner.new }
    ensures phases { length learner.new.phases.now ≡ length learner.old.phases.now }
{
    put_decision(&mut learner.search, assumptions, count, literal);
    learner.note_decision();
    Step::Decided
}

// Decides on, with the first so many assumptions in force. The list stays whole, since promises speak of the
// wishes behind them too.
pub fn decide_on(learner: &mut Learner, assumptions: &[u32], count: usize, guide: Guide) -> Step
    requires known { KnownAll (variables_of learner.old.search.trail) assumptions.now }
    requires count { count ≤ length assumptions.now }
    requires assumed { AssumedT assumptions.now count learner.old.search.trail }
    ensures says { StepSays assumptions.now count learner.old.search.trail learner.new.search.trail result }
    ensures alone { TrailAlone learner.old learner.new }
    ensures phases { length learner.new.phases.now ≡ length learner.old.phases.now }
{
    match next_assumption(learner, assumptions, count) {
        Wanted::Refuted => Step::Refuted,
        Wanted::Open(literal) => put_on(learner, assumptions, count, literal),
        Wanted::Settled => match next_literal(learner, guide) {
            None => Step::Complete,
            Some(literal) => put_on(learner, assumptions, count, literal),
        },
    }
}

// What follows from a clause that was learned: the trail goes back to where the clause leaves one
// literal, which is then implied. That it does is seen here, and trusted from nowhere; where it does
// not, the last decision is turned round.
#![tactic(auto)]

ghost use Rattle.std.specs.Prelude.{◌≡◌, ◌/◌, ◌<◌, ◌≤◌, true, OnOk, OnErr};
ghost use Rattle.clauses.specs.Formulas.{negation};
ghost use Rattle.clauses.specs.Stores.{Known};
ghost use Rattle.trail.specs.Trails.{OnTrail, Jammed, Later, Falls, Forced, NoneModels};
ghost use Rattle.propagation.specs.Views.{variables_of, formula_of};
ghost use Rattle.propagation.specs.Searching.{Same};
ghost use Rattle.learning.specs.Turning.{Taught, LowestDecision};

use clauses::negated;
use propagation::Search;
use trail::NoModel;

// Of what was learned the better half is kept.
mod forgetting;

pub use forgetting::{Uses, forget};

// How the trail went back: to where the clause implies a literal, or to the last decision.
#[derive(Clone, Copy, PartialEq, Eq, Debug)]
pub enum Turn {
    Jump,
    Flip,
}

// Whether the negation of a literal stands before a place.
fn is_refuted(search: &Search, before: usize, literal: u32) -> bool
    requires known { literal / 2 < variables_of search.now }
    requires within { before ≤ search.now.trail.len }
    ensures { result ≡ true → OnTrail search.now.trail.literals before (negation literal) }
{
    let place = search.causes().place(literal / 2) as usize;
    place < before && search.trail().literal(place) == negated(literal)
}

// Whether a clause leaves but one literal, since the negations of the others stand before a place.
fn forces(search: &Search, clause: &[u32], before: usize, literal: u32) -> bool
    requires taught { Taught search.now clause.now }
    requires within { before ≤ search.now.trail.len }
    ensures { result ≡ true → Forced search.now.trail before literal }
{
    search.trail().keeps();
    for other in clause {
        if *other != literal && !is_refuted(search, before, *other) {
            return false;
        }
    }
    true
}

// The lowest decision above the literals of a clause but one; the trail's length where there is none, which
// is a place to go back to as well.
pub fn decision_above(search: &Search, clause: &[u32], literal: u32) -> usize
    requires { Known (variables_of search.now) clause.now }
    ensures { LowestDecision search.now.trail.marks search.now.causes.places clause.now search.now.trail.len literal result }
{
    let mut at: usize = 0;
    for other in clause {
        if *other != literal {
            let standing = search.causes().place(*other / 2) as usize;
            at = at.max(standing + 1);
        }
    }
    // by place, which is what comes back
    for place in at..search.trail().len() {
        if search.trail().is_decided(place) {
            return place;
        }
    }
    search.trail().len()
}

// From a clause that follows, where no model has the decisions: goes back to a decision, if the clause
// leaves there but the negation of the literal at a place, which is then implied; or turns the last
// decision round.
pub fn go_back(
    search: &mut Search,
    clause: &[u32],
    decision: usize,
    place: usize,
) -> Result<Turn, NoModel>
    requires jammed { Jammed search.old.trail }
    requires taught { Taught search.old clause.now }
    ensures same { Same search.old search.new }
    ensures later { Later search.old.trail search.new.trail }
    ensures less { OnOk result (Falls search.old.trail search.new.trail) }
    ensures none { OnErr result (NoneModels (formula_of search.old)) }
    ensures causes { search.new.causes ≡ search.old.causes }
    ensures watches { search.new.watches ≡ search.old.watches }
{
    if decision <= place && place < search.trail().len() && search.trail().is_decided(decision) {
        let literal = negated(search.trail().literal(place));
        if forces(search, clause, decision, literal) {
            search.jump(decision, place);
            return Ok(Turn::Jump);
        }
    }
    search.flip()?;
    Ok(Turn::Flip)
}
